// Marks: a set of a sector's entries, one bit an entry.
ghost use Rattle.std.specs.Prelude.{◌≡◌, true, false, [], ◌<◌, get_or, set};
ghost use Rattle.mask.specs.Flags.{padded};
ghost use Rattle.mask.specs.Marks.{max_marks, marks_of};

// Bits in a word, and the words that hold a bit for each entry that a sector can have.
const WORD: usize = 64;

const WORDS: usize = 64;

// A set of entries, by their numbers. That it is an array of words is known here alone.
#[derive(Clone, Copy)]
pub struct Marks([u64; WORDS]);

impl Marks {
    // No entry is marked.
    pub fn none() -> Marks
        ensures { marks_of result ≡ padded max_marks [] }
    {
        Marks([0u64; WORDS])
    }

    // The marks with entry n marked as well.
    pub fn add(self, n: usize) -> Marks
        requires { n < max_marks }
        ensures { marks_of result ≡ set (marks_of self) n true }
    {
        let mut words = self.0;
        let at = n / WORD;
        words[at] |= 1u64 << (n % WORD);
        Marks(words)
    }

    // Is entry n marked?
    pub fn has(self, n: usize) -> bool
        requires { n < max_marks }
        ensures { result ≡ get_or (marks_of self) n false }
    {
        let words = self.0;
        let at = n / WORD;
        (words[at] >> (n % WORD)) & 1 == 1
    }
}
