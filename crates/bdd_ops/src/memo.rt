//! What was worked out already within one call, so that hardly any three diagrams are worked out twice: the computed table
//! (Brace, Rudell, Bryant 1990).

ghost use Rattle.std.specs.Prelude.{◌≡◌, ◌⊎◌, ℕ, Err, IfSome, OnErr};
ghost use Rattle.bdd_ops.specs.declared.choice.Choice.{Choice};
ghost use Rattle.bdd_ops.specs.declared.memo.Entry.{Entry};
ghost use Rattle.bdd_ops.specs.Recursion.{IsHeld};

use crate::choice::Choice;
use node_table::{MkFault, Ref};
use std::alloc::Global;
use std::hash::{FoldHasher, Hash, Hasher};

/// How many slots the first answer makes: a power of two.
const FIRST_SLOTS: usize = 16;

/// What a slot without an answer has.
const NOTHING: Entry = Entry {
    at: Choice {
        f: Ref::ZERO,
        g: Ref::ZERO,
        h: Ref::ZERO,
    },
    answer: Ref::ZERO,
};

/// An answer, and the three diagrams that it belongs to.
#[derive(Clone, Copy)]
struct Entry {
    at: Choice,
    answer: Ref,
}

/// Answers by the three diagrams that they belong to. Each has one slot, and the next answer with that slot takes its place.
/// There are as many slots as answers were noted, or more, so that few are lost.
#[derive(Drop)]
pub(crate) struct Memo {
    slots: Vec<Entry>,
    noted: usize,
}

impl Memo {
    ghost use Rattle.bdd_ops.specs.Recursion.{IsNoted};

    /// A memo without answers. It takes no memory yet.
    pub(crate) fn new(alloc: Global) -> Memo
        ensures { (c : Choice) (r : ℕ) → IsNoted result c r → ⊥ }
    {
        Memo {
            slots: Vec::new(alloc),
            noted: 0,
        }
    }

    /// The answer at `c`, where it is held.
    pub(crate) fn recall(&self, c: &Choice) -> Option<Ref>
        ensures { IfSome result (λ r. IsNoted self.now c.now r) }
    {
        match self.slots.get(slot_of(c, self.slots.len())) {
            Some(entry) => {
                if entry.at == *c && *c != NOTHING.at {
                    Some(entry.answer)
                } else {
                    None
                }
            }
            None => None,
        }
    }

    /// Holds the answer at `c`, if there is memory.
    pub(crate) fn note(&mut self, c: &Choice, r: Ref) -> Result<(), MkFault>
        ensures noted { (d : Choice) (s : ℕ) → IsNoted self.new d s → ((d ≡ c.now) × (s ≡ r)) ⊎ IsNoted self.old d s }
        ensures memory { OnErr result (result ≡ Err MkFault.Memory) }
    {
        if self.noted >= self.slots.len() {
            self.grow()?;
        }
        self.noted = self.noted.saturating_add(1);
        put(&mut self.slots, Entry { at: *c, answer: r });
        Ok(())
    }

    // Makes more slots, if there is memory, and puts the answers there that are held.
    fn grow(&mut self) -> Result<(), MkFault>
        ensures noted { (d : Choice) (s : ℕ) → IsNoted self.new d s → IsNoted self.old d s }
        ensures memory { OnErr result (result ≡ Err MkFault.Memory) }
    {
        let count = self.slots.len().saturating_mul(4).max(FIRST_SLOTS);
        let Ok(mut slots) = vec![in *self.slots.allocator(); NOTHING; count] else {
            return Err(MkFault::Memory);
        };
        put_all(&mut slots, &self.slots);
        self.slots = slots;
        Ok(())
    }
}

// The slot of three diagrams, where there are so many slots, a power of two.
fn slot_of(c: &Choice, slots: usize) -> usize {
    let mut hasher = FoldHasher::default();
    c.hash(&mut hasher);
    hasher.finish() as usize & slots.wrapping_sub(1)
}

// Puts an answer into its slot.
fn put(slots: &mut [Entry], entry: Entry)
    ensures { (e : Entry) → IsHeld slots.new e → (e ≡ entry) ⊎ IsHeld slots.old e }
{
    let slot = slot_of(&entry.at, slots.len());
    if slot < slots.len() {
        slots[slot] = entry;
    }
}

// Puts the answers of other slots into theirs.
fn put_all(slots: &mut [Entry], others: &[Entry])
    ensures { (e : Entry) → IsHeld slots.new e → IsHeld slots.old e ⊎ IsHeld others.now e }
{
    for entry in others {
        put(slots, *entry);
    }
}
