// The proved cases: document 01's lettered cases A to L, eight networks of shapes that these leave out, and networks
// with withdrawn zones, as rows of one constant array. `rules` has the same table as definitions, with the one test
// that is computed over all its rows and the statement that every row is right (crates/rules/specs/Cases.antt). Here
// each row of the array is shown to be that row.
#![tactic(auto)]

ghost use Rattle.std.specs.Prelude.{◌≡◌, [], map, ◌<◌, get_or};
ghost use Rattle.rules.specs.Cases.{rows, row_numbers};

// A row is four lists. The first has the letter (45, a dash, where there is none), what is asked for (0 the plan, 1
// the skeleton, 2 reading a file, 3 a plan that is refused, 4 whether a zone reaches another), the zone count, how many
// numbers are given, how many are wanted, and the answer's numbers: of a plan s, t, q, p and need, of a skeleton its
// arc count, of a refusal its number and place, of a question both and then 1 for yes. The second has what is given,
// arcs or a file's bytes, and the third what is wanted, links or the bytes of the skeleton's file, or else the two
// zones of the question. The fourth has how many numbers are withdrawn, and these. An arc is one number, 0x23 for the
// arc from 2 to 3, and so is a link, 0x150 for the chain link from 5 to 0.
// Kept (1): each row is proved to be the rules' own row, which is numbers, so kinds and counts are numbers here.
const ROWS: [[[u16; 10]; 4]; 40] = [
    // A: ring and chain
    [
        [65, 0, 6, 5, 2, 2, 2, 0, 2, 2],
        [0x02, 0x23, 0x04, 0x14, 0x45, 0, 0, 0, 0, 0],
        [0x031, 0x150, 0, 0, 0, 0, 0, 0, 0, 0],
        [0, 0, 0, 0, 0, 0, 0, 0, 0, 0],
    ],
    // B: one zone is strong, alone 1
    [
        [66, 0, 1, 0, 0, 0, 0, 1, 0, 0],
        [0, 0, 0, 0, 0, 0, 0, 0, 0, 0],
        [0, 0, 0, 0, 0, 0, 0, 0, 0, 0],
        [0, 0, 0, 0, 0, 0, 0, 0, 0, 0],
    ],
    // C: three alone
    [
        [67, 0, 3, 0, 3, 0, 0, 3, 0, 3],
        [0, 0, 0, 0, 0, 0, 0, 0, 0, 0],
        [0x101, 0x112, 0x120, 0, 0, 0, 0, 0, 0, 0],
        [0, 0, 0, 0, 0, 0, 0, 0, 0, 0],
    ],
    // D: one source, one sink
    [
        [68, 0, 2, 1, 1, 1, 1, 0, 1, 1],
        [0x01, 0, 0, 0, 0, 0, 0, 0, 0, 0],
        [0x110, 0, 0, 0, 0, 0, 0, 0, 0, 0],
        [0, 0, 0, 0, 0, 0, 0, 0, 0, 0],
    ],
    // E: surplus sinks
    [
        [69, 0, 4, 3, 3, 1, 3, 0, 1, 3],
        [0x01, 0x02, 0x03, 0, 0, 0, 0, 0, 0, 0],
        [0x112, 0x123, 0x130, 0, 0, 0, 0, 0, 0, 0],
        [0, 0, 0, 0, 0, 0, 0, 0, 0, 0],
    ],
    // F: turned round
    [
        [70, 0, 4, 3, 3, 3, 1, 0, 1, 3],
        [0x10, 0x20, 0x30, 0, 0, 0, 0, 0, 0, 0],
        [0x121, 0x132, 0x103, 0, 0, 0, 0, 0, 0, 0],
        [0, 0, 0, 0, 0, 0, 0, 0, 0, 0],
    ],
    // G: a pair and a back link, p = 1
    [
        [71, 0, 4, 3, 2, 2, 2, 0, 1, 2],
        [0x02, 0x03, 0x12, 0, 0, 0, 0, 0, 0, 0],
        [0x120, 0x231, 0, 0, 0, 0, 0, 0, 0, 0],
        [0, 0, 0, 0, 0, 0, 0, 0, 0, 0],
    ],
    // H: one alone
    [
        [72, 0, 3, 1, 2, 1, 1, 1, 1, 2],
        [0x01, 0, 0, 0, 0, 0, 0, 0, 0, 0],
        [0x112, 0x120, 0, 0, 0, 0, 0, 0, 0, 0],
        [0, 0, 0, 0, 0, 0, 0, 0, 0, 0],
    ],
    // I: a strong network
    [
        [73, 0, 3, 3, 0, 0, 0, 1, 0, 0],
        [0x01, 0x12, 0x20, 0, 0, 0, 0, 0, 0, 0],
        [0, 0, 0, 0, 0, 0, 0, 0, 0, 0],
        [0, 0, 0, 0, 0, 0, 0, 0, 0, 0],
    ],
    // J: a skeleton, as its file
    [
        [74, 1, 4, 6, 10, 4, 0, 0, 0, 0],
        [0x01, 0x12, 0x02, 0x21, 0x23, 0x03, 0, 0, 0, 0],
        [0x04, 0x04, 0x00, 0x01, 0x01, 0x02, 0x01, 0x03, 0x02, 0x01],
        [0, 0, 0, 0, 0, 0, 0, 0, 0, 0],
    ],
    // K: the empty file
    [
        [75, 2, 0, 0, 0, 1, 0, 0, 0, 0],
        [0, 0, 0, 0, 0, 0, 0, 0, 0, 0],
        [0, 0, 0, 0, 0, 0, 0, 0, 0, 0],
        [0, 0, 0, 0, 0, 0, 0, 0, 0, 0],
    ],
    // L: a loose number
    [
        [76, 2, 0, 3, 0, 3, 2, 0, 0, 0],
        [0x80, 0x80, 0x00, 0, 0, 0, 0, 0, 0, 0],
        [0, 0, 0, 0, 0, 0, 0, 0, 0, 0],
        [0, 0, 0, 0, 0, 0, 0, 0, 0, 0],
    ],
    // more sinks than sources, and alone
    [
        [45, 0, 4, 2, 3, 1, 2, 1, 1, 3],
        [0x01, 0x02, 0, 0, 0, 0, 0, 0, 0, 0],
        [0x112, 0x123, 0x130, 0, 0, 0, 0, 0, 0, 0],
        [0, 0, 0, 0, 0, 0, 0, 0, 0, 0],
    ],
    // turned round, and alone
    [
        [45, 0, 4, 2, 3, 2, 1, 1, 1, 3],
        [0x10, 0x20, 0, 0, 0, 0, 0, 0, 0, 0],
        [0x121, 0x132, 0x103, 0, 0, 0, 0, 0, 0, 0],
        [0, 0, 0, 0, 0, 0, 0, 0, 0, 0],
    ],
    // ring, chain and back
    [
        [45, 0, 6, 4, 3, 3, 3, 0, 2, 3],
        [0x01, 0x02, 0x43, 0x53, 0, 0, 0, 0, 0, 0],
        [0x014, 0x130, 0x225, 0, 0, 0, 0, 0, 0, 0],
        [0, 0, 0, 0, 0, 0, 0, 0, 0, 0],
    ],
    // turned round, with back
    [
        [45, 0, 5, 4, 3, 3, 2, 0, 1, 3],
        [0x04, 0x13, 0x23, 0x03, 0, 0, 0, 0, 0, 0],
        [0x120, 0x132, 0x241, 0, 0, 0, 0, 0, 0, 0],
        [0, 0, 0, 0, 0, 0, 0, 0, 0, 0],
    ],
    // turned round, with ring
    [
        [45, 0, 5, 3, 3, 3, 2, 0, 2, 3],
        [0x01, 0x23, 0x43, 0, 0, 0, 0, 0, 0, 0],
        [0x030, 0x142, 0x114, 0, 0, 0, 0, 0, 0, 0],
        [0, 0, 0, 0, 0, 0, 0, 0, 0, 0],
    ],
    // all four at once
    [
        [45, 0, 8, 5, 5, 4, 3, 1, 2, 5],
        [0x01, 0x51, 0x71, 0x63, 0x62, 0, 0, 0, 0, 0],
        [0x020, 0x176, 0x147, 0x114, 0x235, 0, 0, 0, 0, 0],
        [0, 0, 0, 0, 0, 0, 0, 0, 0, 0],
    ],
    // the lowest sink is not the first met
    [
        [45, 0, 4, 3, 2, 1, 2, 0, 1, 2],
        [0x01, 0x02, 0x13, 0, 0, 0, 0, 0, 0, 0],
        [0x123, 0x130, 0, 0, 0, 0, 0, 0, 0, 0],
        [0, 0, 0, 0, 0, 0, 0, 0, 0, 0],
    ],
    // components of several zones as ends
    [
        [45, 0, 5, 5, 2, 1, 1, 1, 1, 2],
        [0x12, 0x21, 0x20, 0x34, 0x43, 0, 0, 0, 0, 0],
        [0x103, 0x131, 0, 0, 0, 0, 0, 0, 0, 0],
        [0, 0, 0, 0, 0, 0, 0, 0, 0, 0],
    ],
    // three zones, 1 withdrawn, no arc: the other two are alone
    [
        [45, 0, 3, 0, 2, 0, 0, 2, 0, 2],
        [0, 0, 0, 0, 0, 0, 0, 0, 0, 0],
        [0x102, 0x120, 0, 0, 0, 0, 0, 0, 0, 0],
        [1, 1, 0, 0, 0, 0, 0, 0, 0, 0],
    ],
    // one zone remains: strong
    [
        [45, 0, 3, 0, 0, 0, 0, 1, 0, 0],
        [0, 0, 0, 0, 0, 0, 0, 0, 0, 0],
        [0, 0, 0, 0, 0, 0, 0, 0, 0, 0],
        [2, 0, 2, 0, 0, 0, 0, 0, 0, 0],
    ],
    // the lowest number is withdrawn, and one in the middle
    [
        [45, 0, 5, 1, 2, 1, 1, 1, 1, 2],
        [0x12, 0, 0, 0, 0, 0, 0, 0, 0, 0],
        [0x124, 0x141, 0, 0, 0, 0, 0, 0, 0, 0],
        [2, 0, 3, 0, 0, 0, 0, 0, 0, 0],
    ],
    // turned round, alone, and the highest number withdrawn
    [
        [45, 0, 5, 2, 3, 2, 1, 1, 1, 3],
        [0x10, 0x20, 0, 0, 0, 0, 0, 0, 0, 0],
        [0x121, 0x132, 0x103, 0, 0, 0, 0, 0, 0, 0],
        [1, 4, 0, 0, 0, 0, 0, 0, 0, 0],
    ],
    // the zones that remain are strong
    [
        [45, 0, 4, 2, 0, 0, 0, 1, 0, 0],
        [0x13, 0x31, 0, 0, 0, 0, 0, 0, 0, 0],
        [0, 0, 0, 0, 0, 0, 0, 0, 0, 0],
        [2, 0, 2, 0, 0, 0, 0, 0, 0, 0],
    ],
    // a skeleton with a withdrawn zone in the middle of a component's numbers
    [
        [45, 1, 4, 4, 8, 3, 0, 0, 0, 0],
        [0x02, 0x20, 0x03, 0x23, 0, 0, 0, 0, 0, 0],
        [0x04, 0x03, 0x00, 0x02, 0x00, 0x03, 0x02, 0x00, 0, 0],
        [1, 1, 0, 0, 0, 0, 0, 0, 0, 0],
    ],
    // LIST at 0: out of range
    [
        [45, 3, 3, 1, 0, 12, 0, 0, 0, 0],
        [0x01, 0, 0, 0, 0, 0, 0, 0, 0, 0],
        [0, 0, 0, 0, 0, 0, 0, 0, 0, 0],
        [1, 3, 0, 0, 0, 0, 0, 0, 0, 0],
    ],
    // LIST at 1: not above the one before
    [
        [45, 3, 7, 1, 0, 12, 1, 0, 0, 0],
        [0x01, 0, 0, 0, 0, 0, 0, 0, 0, 0],
        [0, 0, 0, 0, 0, 0, 0, 0, 0, 0],
        [2, 4, 3, 0, 0, 0, 0, 0, 0, 0],
    ],
    // LIST at 1: the same number again
    [
        [45, 3, 7, 1, 0, 12, 1, 0, 0, 0],
        [0x01, 0, 0, 0, 0, 0, 0, 0, 0, 0],
        [0, 0, 0, 0, 0, 0, 0, 0, 0, 0],
        [2, 4, 4, 0, 0, 0, 0, 0, 0, 0],
    ],
    // LIST at 0: out of range comes before the order of the next
    [
        [45, 3, 7, 1, 0, 12, 0, 0, 0, 0],
        [0x01, 0, 0, 0, 0, 0, 0, 0, 0, 0],
        [0, 0, 0, 0, 0, 0, 0, 0, 0, 0],
        [2, 9, 4, 0, 0, 0, 0, 0, 0, 0],
    ],
    // NONE: all are withdrawn
    [
        [45, 3, 2, 0, 0, 13, 0, 0, 0, 0],
        [0, 0, 0, 0, 0, 0, 0, 0, 0, 0],
        [0, 0, 0, 0, 0, 0, 0, 0, 0, 0],
        [2, 0, 1, 0, 0, 0, 0, 0, 0, 0],
    ],
    // GONE of a tail
    [
        [45, 3, 3, 2, 0, 14, 1, 0, 0, 0],
        [0x01, 0x20, 0, 0, 0, 0, 0, 0, 0, 0],
        [0, 0, 0, 0, 0, 0, 0, 0, 0, 0],
        [1, 2, 0, 0, 0, 0, 0, 0, 0, 0],
    ],
    // GONE of a head
    [
        [45, 3, 3, 2, 0, 14, 1, 0, 0, 0],
        [0x01, 0x12, 0, 0, 0, 0, 0, 0, 0, 0],
        [0, 0, 0, 0, 0, 0, 0, 0, 0, 0],
        [1, 2, 0, 0, 0, 0, 0, 0, 0, 0],
    ],
    // SELF comes before GONE
    [
        [45, 3, 3, 2, 0, 7, 1, 0, 0, 0],
        [0x01, 0x22, 0, 0, 0, 0, 0, 0, 0, 0],
        [0, 0, 0, 0, 0, 0, 0, 0, 0, 0],
        [1, 2, 0, 0, 0, 0, 0, 0, 0, 0],
    ],
    // GONE of an arc comes before RANGE of a later one
    [
        [45, 3, 3, 2, 0, 14, 0, 0, 0, 0],
        [0x20, 0x31, 0, 0, 0, 0, 0, 0, 0, 0],
        [0, 0, 0, 0, 0, 0, 0, 0, 0, 0],
        [1, 2, 0, 0, 0, 0, 0, 0, 0, 0],
    ],
    // a question between two zones that remain
    [
        [45, 4, 3, 1, 2, 0, 0, 1, 0, 0],
        [0x02, 0, 0, 0, 0, 0, 0, 0, 0, 0],
        [0, 2, 0, 0, 0, 0, 0, 0, 0, 0],
        [1, 1, 0, 0, 0, 0, 0, 0, 0, 0],
    ],
    // GONE of the first zone of a question
    [
        [45, 4, 3, 1, 2, 14, 1, 0, 0, 0],
        [0x02, 0, 0, 0, 0, 0, 0, 0, 0, 0],
        [1, 0, 0, 0, 0, 0, 0, 0, 0, 0],
        [1, 1, 0, 0, 0, 0, 0, 0, 0, 0],
    ],
    // GONE of the second
    [
        [45, 4, 3, 1, 2, 14, 1, 0, 0, 0],
        [0x02, 0, 0, 0, 0, 0, 0, 0, 0, 0],
        [0, 1, 0, 0, 0, 0, 0, 0, 0, 0],
        [1, 1, 0, 0, 0, 0, 0, 0, 0, 0],
    ],
    // GONE of a zone and itself
    [
        [45, 4, 3, 1, 2, 14, 1, 0, 0, 0],
        [0x02, 0, 0, 0, 0, 0, 0, 0, 0, 0],
        [1, 1, 0, 0, 0, 0, 0, 0, 0, 0],
        [1, 1, 0, 0, 0, 0, 0, 0, 0, 0],
    ],
    // HEAD of the second comes before GONE of the first
    [
        [45, 4, 3, 1, 2, 11, 1, 0, 0, 0],
        [0x02, 0, 0, 0, 0, 0, 0, 0, 0, 0],
        [1, 9, 0, 0, 0, 0, 0, 0, 0, 0],
        [1, 1, 0, 0, 0, 0, 0, 0, 0, 0],
    ],
];

// The row of index i.
pub fn row_at(i: usize) -> [[u16; 10]; 4]
    requires { i < 40 }
    ensures { result ≡ get_or (map row_numbers rows) i [] }
{
    ROWS[i]
}
