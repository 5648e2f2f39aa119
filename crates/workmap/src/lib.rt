// The map of lent work memory: a named place for everything that stands there, made from the zone count and the arc
// count. What changes later lies lower, and the arranged rows, which stay, lie last. A place that two passes use one
// after the other has a name for each use. No other crate says at which multiple of the zone count a place is: a pass
// is handed the places that it uses, and asks of them only that they lie apart.
#![tactic(auto)]

ghost use Rattle.std.specs.Prelude.{◌≡◌, ◌≤◌};
ghost use Rattle.rules.specs.Calls.{asked_work};
ghost use Rattle.workmap.specs.Map.{rows_at, turned_at, search_at, back_at, order_at, names_at, kinds_at};
ghost use Rattle.workmap.specs.Map.{lists_at, pairs_at, links_at, rings_at, places_at, table_at, map_of};

// Rows of heads: how many zones there are, and where the starts of the rows and the rows stand.
#[derive(Clone, Copy)]
pub struct RowsAt {
    pub zones: usize,
    pub starts: usize,
    pub rows: usize,
}

// A search: where the marks of the zones stand, and where the zones that are met.
#[derive(Clone, Copy)]
pub struct SearchAt {
    pub marks: usize,
    pub queue: usize,
}

// The finishing order: when each zone was seen, its next place in its row, and the order.
#[derive(Clone, Copy)]
pub struct OrderAt {
    pub seen: usize,
    pub next: usize,
    pub order: usize,
}

// The components: the names in topological order, each zone's name, the lowest zone of each root, the roots, and the
// queue of the zones by component.
#[derive(Clone, Copy)]
pub struct NamesAt {
    pub tops: usize,
    pub names: usize,
    pub low: usize,
    pub roots: usize,
    pub queue: usize,
}

// The kinds: each zone's name, and for each name whether its component is entered and whether it is left.
#[derive(Clone, Copy)]
pub struct KindsAt {
    pub zones: usize,
    pub names: usize,
    pub entered: usize,
    pub exited: usize,
}

// The names of each kind: the sources, the sinks and the components alone.
#[derive(Clone, Copy)]
pub struct ListsAt {
    pub sources: usize,
    pub sinks: usize,
    pub alone: usize,
}

// The pairing: the sources of the pairs, their sinks, and the lone sources.
#[derive(Clone, Copy)]
pub struct PairsAt {
    pub firsts: usize,
    pub seconds: usize,
    pub lone: usize,
}

// The links: the stations of the chain, and where each link comes from, goes to, and why it is there.
#[derive(Clone, Copy)]
pub struct LinksAt {
    pub stations: usize,
    pub from: usize,
    pub to: usize,
    pub why: usize,
}

// The side on which the plan rule runs, as given or turned round: its rows, the search along them, the names of its
// kinds, its pairs and its links.
#[derive(Clone, Copy)]
pub struct Side {
    pub rows: RowsAt,
    pub search: SearchAt,
    pub lists: ListsAt,
    pub pairs: PairsAt,
    pub links: LinksAt,
}

// The rings of the components: for each name the lowest zone of its component so far, and each zone's name.
#[derive(Clone, Copy)]
pub struct RingsAt {
    pub zones: usize,
    pub last: usize,
    pub names: usize,
}

// The places of the components in their topological order: the place of each name; the names in that order, and each
// zone's name; and the names in that order once more, behind the table.
#[derive(Clone, Copy)]
pub struct PlacesAt {
    pub zones: usize,
    pub spots: usize,
    pub tops: usize,
    pub names: usize,
    pub order: usize,
}

// The network of the components, by their places: behind the table of who reaches whom, which is at the front, the
// names in topological order, and the rows of heads.
#[derive(Clone, Copy)]
pub struct TableAt {
    pub tops: usize,
    pub rows: RowsAt,
}

// Where everything stands in the work memory of a network of so many zones and arcs, and how much of it is asked for.
#[derive(Clone, Copy)]
pub struct Map {
    pub zones: usize,
    pub arcs: usize,
    pub asked: usize,
    pub rows: RowsAt,
    pub turned: RowsAt,
    pub search: SearchAt,
    pub back: SearchAt,
    pub order: OrderAt,
    pub names: NamesAt,
    pub kinds: KindsAt,
    pub lists: ListsAt,
    pub pairs: PairsAt,
    pub links: LinksAt,
    pub rings: RingsAt,
    pub places: PlacesAt,
    pub table: TableAt,
    pub sorting: RowsAt,
}

// The work memory that a call asks for.
pub fn asked_work(zones: usize, arcs: usize) -> usize
    requires zones_bound { zones ≤ 1024 }
    requires arcs_bound { arcs ≤ 4096 }
    ensures { result ≡ asked_work zones arcs }
{
    16 * zones + 3 * arcs
}

// The two counts of a network, within the bounds of its tests. Where each part stands is a method.
#[derive(Clone, Copy)]
struct Sizes {
    zones: usize,
    arcs: usize,
    ghost zones_bound: { zones ≤ 1024 },
    ghost arcs_bound: { arcs ≤ 4096 },
}

impl Sizes {
    // The rows, behind everything else: their starts, one more than there are zones, and the rows.
    fn rows(self) -> RowsAt
        ensures { result ≡ rows_at self.zones }
    {
        RowsAt {
            zones: self.zones,
            starts: 12 * self.zones,
            rows: 13 * self.zones + 1,
        }
    }

    // The turned rows, behind the rows.
    fn turned(self) -> RowsAt
        ensures { result ≡ turned_at self.zones self.arcs }
    {
        RowsAt {
            zones: self.zones,
            starts: 13 * self.zones + 1 + self.arcs,
            rows: 14 * self.zones + 2 + self.arcs,
        }
    }

    // A search, at the front.
    fn search(self) -> SearchAt
        ensures { result ≡ search_at self.zones }
    {
        SearchAt {
            marks: 0,
            queue: self.zones,
        }
    }

    // A search against the arcs, behind the search.
    fn back(self) -> SearchAt
        ensures { result ≡ back_at self.zones }
    {
        SearchAt {
            marks: 2 * self.zones,
            queue: 3 * self.zones,
        }
    }

    // The finishing order, right before the rows.
    fn order(self) -> OrderAt
        ensures { result ≡ order_at self.zones }
    {
        OrderAt {
            seen: 9 * self.zones,
            next: 10 * self.zones,
            order: 11 * self.zones,
        }
    }

    // The components, before the finishing order.
    fn names(self) -> NamesAt
        ensures { result ≡ names_at self.zones }
    {
        NamesAt {
            tops: 4 * self.zones,
            names: 5 * self.zones,
            low: 6 * self.zones,
            roots: 7 * self.zones,
            queue: 8 * self.zones,
        }
    }

    // The kinds, before the components; the names are where the components have them.
    fn kinds(self) -> KindsAt
        ensures { result ≡ kinds_at self.zones }
    {
        KindsAt {
            zones: self.zones,
            names: 5 * self.zones,
            entered: 2 * self.zones,
            exited: 3 * self.zones,
        }
    }

    // The names of each kind, where the components have what is no longer used.
    fn lists(self) -> ListsAt
        ensures { result ≡ lists_at self.zones }
    {
        ListsAt {
            sources: 4 * self.zones,
            sinks: 6 * self.zones,
            alone: 7 * self.zones,
        }
    }

    // The pairs, behind the names of each kind.
    fn pairs(self) -> PairsAt
        ensures { result ≡ pairs_at self.zones }
    {
        PairsAt {
            firsts: 8 * self.zones,
            seconds: 9 * self.zones,
            lone: 10 * self.zones,
        }
    }

    // The links, where the search was, and behind the pairs.
    fn links(self) -> LinksAt
        ensures { result ≡ links_at self.zones }
    {
        LinksAt {
            stations: 2 * self.zones,
            from: 0,
            to: self.zones,
            why: 11 * self.zones,
        }
    }

    // The rings, at the front; the names are where the components have them.
    fn rings(self) -> RingsAt
        ensures { result ≡ rings_at self.zones }
    {
        RingsAt {
            zones: self.zones,
            last: 0,
            names: 5 * self.zones,
        }
    }

    // The places of the components, behind the rings; the names are where the components have them.
    fn places(self) -> PlacesAt
        ensures { result ≡ places_at self.zones }
    {
        PlacesAt {
            zones: self.zones,
            spots: 2 * self.zones,
            tops: 4 * self.zones,
            names: 5 * self.zones,
            order: 8 * self.zones,
        }
    }

    // The network of the components: the names right behind the table, and the rows where those of the zones were.
    fn table(self) -> TableAt
        ensures { result ≡ table_at self.zones }
    {
        TableAt {
            tops: 8 * self.zones,
            rows: self.rows(),
        }
    }
}

// The map of a network of so many zones and arcs.
pub fn map_of(zones: usize, arcs: usize) -> Map
    requires zones_bound { zones ≤ 1024 }
    requires arcs_bound { arcs ≤ 4096 }
    ensures { result ≡ map_of zones arcs }
{
    let sizes = Sizes { zones, arcs };
    Map {
        zones,
        arcs,
        asked: asked_work(zones, arcs),
        rows: sizes.rows(),
        turned: sizes.turned(),
        search: sizes.search(),
        back: sizes.back(),
        order: sizes.order(),
        names: sizes.names(),
        kinds: sizes.kinds(),
        lists: sizes.lists(),
        pairs: sizes.pairs(),
        links: sizes.links(),
        rings: sizes.rings(),
        places: sizes.places(),
        table: sizes.table(),
        sorting: sizes.rows(),
    }
}
