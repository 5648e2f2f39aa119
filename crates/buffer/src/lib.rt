// A text that is written into a lent buffer of bytes, front to back: bytes, numbers, and words with numbers after them.
// Each method puts one text after what the buffer has; every other byte of it stays as it came.
#![tactic(auto)]

ghost use Rattle.std.specs.Prelude.{◌≡◌, ◌<◌};
ghost use Rattle.rules.specs.Text.{decimal};
ghost use Rattle.buffer.specs.Put.{HasRoom, Appended};
ghost use Rattle.buffer.specs.Words.{labelled, two};

// A lent buffer, and how many bytes of it are text.
// Kept (6): the caller lends the bytes, and there is no heap; this is the one type that has both.
#[derive(Drop)]
pub struct Page<'a> {
    bytes: &'a mut [u8],
    len: usize,
}

impl<'a> Page<'a> {
    // A page with no text.
    pub fn new(bytes: &'a mut [u8]) -> Page<'a>
        ensures same_reference { result.bytes.ghost_name ≡ bytes.entry.ghost_name }
        ensures buffer { result.bytes.now ≡ bytes.old }
        ensures empty { result.len ≡ 0 }
    {
        Page { bytes, len: 0 }
    }

    // How many bytes the text has.
    pub fn written(&self) -> usize
        ensures { result ≡ self.now.len }
    {
        self.len
    }

    // Puts bytes after the text.
    pub fn put_bytes(&mut self, s: &[u8])
        requires { HasRoom self.old s.now }
        ensures { Appended self.old s.now self.new }
    {
        let end = self.len + s.len();
        self.bytes[self.len..end].copy_from_slice(s);
        self.len = end;
    }

    // Puts one decimal digit.
    fn put_digit(&mut self, digit: usize)
        requires digit_bound { digit < 10 }
        requires room { HasRoom self.old (decimal digit) }
        ensures { Appended self.old (decimal digit) self.new }
    {
        self.put_bytes(&[48 + digit as u8])
    }

    // Puts the decimal digits of a number: those of its tenth, and then its last digit.
    // Kept (4): by its contract `write!` may fail, and the promise has the rules' own decimal digits, put whole.
    pub fn put_number(&mut self, n: usize)
        requires { HasRoom self.old (decimal n) }
        ensures { Appended self.old (decimal n) self.new }
    {
        if n < 10 {
            return self.put_digit(n);
        }
        self.put_number(n / 10);
        self.put_digit(n % 10)
    }

    // Puts a word and then a number.
    #[tactic(auto, unfolding(crate::specs::Words::labelled))]
    pub fn put_labelled(&mut self, label: &[u8], n: usize)
        requires { HasRoom self.old (labelled label.now n) }
        ensures { Appended self.old (labelled label.now n) self.new }
    {
        self.put_bytes(label);
        self.put_number(n)
    }

    // Puts two words, each with a number after it.
    #[tactic(auto, unfolding(crate::specs::Words::two))]
    pub fn put_two(&mut self, first: &[u8], m: usize, second: &[u8], n: usize)
        requires { HasRoom self.old (two first.now m second.now n) }
        ensures { Appended self.old (two first.now m second.now n) self.new }
    {
        self.put_labelled(first, m);
        self.put_labelled(second, n)
    }
}
