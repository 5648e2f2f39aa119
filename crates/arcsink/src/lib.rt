// A place where arcs are put: two lent lists, of tails and of heads, and how many arcs stand in them so far.
#![tactic(auto)]

ghost use Rattle.std.specs.Prelude.{[], ◌∷◌};
ghost use Rattle.rules.specs.Network.{◌⟶◌};
ghost use Rattle.arcsink.specs.Sink.{SinkFit, SinkPut};

// The two lists, and how many arcs stand in them.
#[derive(Drop)]
pub struct ArcSink<'a> {
    pub tails: &'a mut [u16],
    pub heads: &'a mut [u16],
    pub len: usize,
}

impl ArcSink<'_> {
    // Puts one arc more, behind the others.
    pub fn put(&mut self, tail: u16, head: u16)
        requires { SinkFit self.old ((tail ⟶ head) ∷ []) }
        ensures { SinkPut self.old self.new ((tail ⟶ head) ∷ []) }
    {
        self.tails[self.len] = tail;
        self.heads[self.len] = head;
        self.len += 1;
    }
}
