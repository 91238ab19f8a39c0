// The names that stand at a place, by value.
ghost use Rattle.std.specs.Prelude.{◌≡◌, [], ◌∷◌, ◌≤◌, ◌-◌, length};

use crate::Entry;

// Names lie at the end: from top on.
#[derive(Clone, Copy)]
pub struct Table {
    top: usize,
    words: [u16; 640],
    pub ghost within: { top ≤ 640 },
}

impl Table {
    ghost use Rattle.names.specs.Names.{extended, held};

    // No names.
    pub fn none() -> Self
        ensures { held result ≡ [] }
    {
        Table {
            top: 640,
            words: [0; 640],
        }
    }

    // The names, as they are lent.
    pub fn lent(&self) -> &[u16]
        ensures { result.now ≡ held self.now }
    {
        &self.words[self.top..]
    }

    // The names lent, by value.
    fn copied(names: &[u16]) -> Self
        requires { length names.now ≤ 640 }
        ensures names { held result ≡ names.now }
        ensures top { result.top ≡ 640 - length names.now }
    {
        let top = 640 - names.len();
        let mut words: [u16; 640] = [0; 640];
        words[top..].copy_from_slice(names);
        Table { top, words }
    }

    // One name more in front.
    fn placed(mut self, start: u16, n: u16, entry: Entry) -> Self
        requires { 5 ≤ self.top }
        ensures { held result ≡ start ∷ n ∷ entry.kind ∷ entry.value ∷ entry.size ∷ held self }
    {
        let end = self.top;
        let top = end - 5;
        self.words[top..end].copy_from_slice(&[start, n, entry.kind, entry.value, entry.size]);
        self.top = top;
        self
    }

    // The names lent with one more, which hides what has its spelling.
    #[tactic(auto, using(std::proofs::lemmas::Grind::common_steps), unfolding(crate::specs::Names::extended))]
    pub fn extend(names: &[u16], start: usize, n: usize, entry: Entry) -> Self
        ensures { held result ≡ extended names.now start n entry.kind entry.value entry.size }
    {
        match (u16::try_from(start), u16::try_from(n)) {
            (Ok(start), Ok(n)) if names.len() <= 635 => Table::copied(names).placed(
                start, n, entry,
            ),
            _ => Table::none(),
        }
    }
}
