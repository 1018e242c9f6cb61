// The table of predicates: what it must satisfy before a run begins (refusal 13), and a predicate looked up.

#![tactic(auto)]

ghost use Rattle.std.specs.Prelude.{◌≡◌, length};
ghost use Rattle.bits.specs.Below.{every_below};
ghost use Rattle.predicate_table.specs.Predicates.{predicate_at, count_good, count_good_at, predicates_good};
ghost use Rattle.predicate_table.specs.Borrowed.{predicates_of, found};

// The lent table: predicate k has the k-th bits and the k-th count. Two slices and not one of records, since a run whose slices differ in length
// answers 13 (`predicates_good`).
#[derive(Clone, Copy)]
pub struct Predicates<'a> {
    pub bits: &'a [u32],
    pub counts: &'a [u8],
}

// A predicate's bits, and how many of them are its elements.
#[derive(Clone, Copy)]
pub struct Predicate {
    pub bits: u32,
    pub count: u8,
}

// What is known of an id: whether the table has the predicate, its bits, and its count. A record that is not present may have bits and a count
// all the same: whoever is given one is asked of any such numbers.
#[derive(Clone, Copy)]
pub struct PredicateRecord {
    pub present: bool,
    pub bits: u32,
    pub count: u8,
}

#[tactic(auto, unfolding(crate::specs::Predicates::count_good))]
fn count_good(count: u8) -> bool
    ensures { result ≡ count_good count }
{
    1 <= count && count <= 32
}

fn every_count_good(counts: &[u8]) -> bool
    ensures { result ≡ every_below (length counts.now) (count_good_at counts.now) }
{
    counts.iter().all(|count| count_good(*count))
}

impl Predicates<'_> {
    // The predicate of an id, if the table has it. Whoever needs one asks here: beside `count` and `good` nothing else reads the two slices.
    #[tactic(auto, unfolding(crate::specs::Predicates::predicate_at))]
    pub fn at(self, id: u16) -> Option<Predicate>
        ensures { result ≡ found (predicate_at (predicates_of self.entry) id) }
    {
        let i = usize::from(id);
        let bits = self.bits.get(i).copied()?;
        let count = self.count(id);
        Some(Predicate { bits, count })
    }

    // The count of an id; where the table has no bits of it too, 0 past the end of the counts.
    #[tactic(auto, unfolding(crate::specs::Predicates::predicate_at))]
    pub fn count(self, id: u16) -> u8
        ensures { result ≡ (predicate_at (predicates_of self.entry) id).count }
    {
        self.counts.get(usize::from(id)).copied().unwrap_or(0)
    }

    // What is known of an id: a count may stand past the end of the bits.
    #[tactic(auto, unfolding(crate::specs::Predicates::predicate_at))]
    pub fn record_at(self, id: u16) -> PredicateRecord
        ensures { result ≡ predicate_at (predicates_of self.entry) id }
    {
        let bits = self.bits.get(usize::from(id)).copied();
        PredicateRecord {
            present: bits.is_some(),
            bits: bits.unwrap_or(0),
            count: self.count(id),
        }
    }

    // Whether the table keeps the sizes.
    #[tactic(auto, unfolding(crate::specs::Predicates::predicates_good))]
    pub fn good(self) -> bool
        ensures { result ≡ predicates_good (predicates_of self.entry) }
    {
        self.bits.len() <= 64
            && self.counts.len() == self.bits.len()
            && every_count_good(self.counts)
    }
}
