//! Names in a text, and the names of one kind in the order of their declarations.
ghost use Rattle.cmwq_types.specs.Name.{is_name};
ghost use Rattle.std.specs.List.{list_any};
ghost use Rattle.std.specs.Prelude.{◌≡◌, ◌<◌, ◌++◌, ◌∷◌, [], IfSome, IsTrue, OnOk, Some, false, position};
ghost use Rattle.std.specs.Str.{bytes_eq};

use crate::equality::is_same;
use cmwq_types::{Name, NoMemory};
use indexmap::IndexSet;
use std::alloc::Global;
use std::hash::{Hash, Hasher};
use std::marker::Model;

/// A name where it stands in the text. Contracts see its bytes.
#[derive(Drop)]
pub struct Named<'t> {
    name: Name,
    /// Where it stands.
    bytes: &'t [u8],
}

impl<'t> Model for Named<'t> {
    ghost use Rattle.cmwq_types.specs.Name.{is_name};
    ghost use Rattle.std.specs.Prelude.{◌≡◌, IsTrue, List, ℕ};

    ghost Value = { List ℕ };

    ghost view = { λ n. n.name };

    ghost invariant = { λ n. (n.bytes.now ≡ n.name) × IsTrue (is_name n.bytes.now) };
}

impl<'t> Named<'t> {
    /// The name that stands there.
    pub(crate) fn new(name: Name, bytes: &'t [u8]) -> Named<'t>
        requires same { name ≡ bytes.now }
        requires name { IsTrue (is_name bytes.now) }
        ensures { result ≡ name }
    {
        Named { name, bytes }
    }

    pub fn name(&self) -> Name
        ensures { result ≡ self.now }
    {
        self.name
    }

    /// Its bytes in the text.
    fn bytes(&self) -> &'t [u8]
        ensures same { result.now ≡ self.now }
        ensures name { IsTrue (is_name result.now) }
    {
        self.bytes
    }
}

/// A name's bytes in the text, as a key: they go into a hash in one piece.
#[derive(Clone, Copy)]
struct Key<'t> {
    bytes: &'t [u8],
}

impl<'t> PartialEq for Key<'t> {
    ghost use Rattle.std.specs.Cmp.{on_per, partial_equiv_from_equiv};
    ghost use Rattle.std.specs.Cmp.Lexicographic.{nat_list_eq_equiv};
    ghost use Rattle.std.specs.Str.{bytes_eq};

    ghost eq = { λ x y. bytes_eq x.bytes.now y.bytes.now };

    ghost laws = { on_per (λ k. k.bytes.now) (partial_equiv_from_equiv nat_list_eq_equiv) };

    fn eq(&self, other: &Self) -> bool {
        self.bytes == other.bytes
    }
}

impl<'t> Eq for Key<'t> {
    ghost use Rattle.std.specs.Cmp.{on_equiv};
    ghost use Rattle.std.specs.Cmp.Lexicographic.{nat_list_eq_equiv};

    ghost laws = { on_equiv (λ k. k.bytes.now) nat_list_eq_equiv };
}

impl<'t> Hash for Key<'t> {
    ghost use Rattle.std.proofs.Common.{ap};
    ghost use Rattle.std.specs.Cmp.Lexicographic.{bytes_decides};
    ghost use Rattle.std.specs.Prelude.{◌∷◌, []};

    ghost hash_input = { λ k. k.bytes.now ∷ [] };

    ghost respects_eq = { λ x y same. ap (λ bytes. bytes ∷ []) ((bytes_decides x.bytes.now y.bytes.now).0 same) };

    fn hash<H: Hasher>(&self, state: &mut H) {
        state.write(self.bytes);
    }
}

/// How many hints there are.
const HINTS: usize = 1024;

/// Distinct names of one kind (queues, works or actors), each with its bytes in the text. A name's place
/// is its number.
#[derive(Drop)]
pub struct Names<'t> {
    names: IndexSet<Key<'t>>,
    /// At a name's slot the number of the last name that was added there, so that few look-ups need the
    /// set's hash. Nothing is claimed of them: a hint that doesn't lead to the name is passed over.
    hints: [u8; HINTS],
}

impl<'t> Model for Names<'t> {
    ghost use Rattle.cmwq_types.specs.Name.{is_name};
    ghost use Rattle.std.specs.List.{All};
    ghost use Rattle.std.specs.Prelude.{IsTrue, List, ℕ, map};

    ghost Value = { List (List ℕ) };

    ghost view = { λ s. map (λ key. key.bytes.now) s.names.keys };

    ghost invariant = { λ s. All (λ key. IsTrue (is_name key.bytes.now)) s.names.keys };
}

impl<'t> Names<'t> {
    /// No names.
    pub fn new(alloc: Global) -> Names<'t>
        ensures { result ≡ [] }
    {
        Names {
            names: IndexSet::new(alloc),
            hints: [0; HINTS],
        }
    }

    /// Whether the name is there.
    pub fn contains(&self, name: &Named) -> bool
        ensures { result ≡ list_any (λ other. bytes_eq other name.now) self.now }
    {
        self.names.contains(&Key {
            bytes: name.bytes(),
        })
    }

    /// The number of the name that is these bytes, if it is there.
    #[inline(always)]
    pub fn number_of(&self, bytes: &[u8]) -> Option<usize>
        ensures number { result ≡ position (λ other. bytes_eq other bytes.now) self.now }
        ensures name { IfSome result (λ number. IsTrue (is_name bytes.now)) }
    {
        match self.hinted(bytes) {
            Some(number) => Some(number),
            None => self.searched(bytes),
        }
    }

    /// The number of the name that is these bytes, if it is there, by the set's hash.
    #[cold]
    #[inline(never)]
    fn searched(&self, bytes: &[u8]) -> Option<usize>
        ensures number { result ≡ position (λ other. bytes_eq other bytes.now) self.now }
        ensures name { IfSome result (λ number. IsTrue (is_name bytes.now)) }
    {
        self.names.get_index_of(&Key { bytes })
    }

    /// The number that the hint of these bytes leads to, if the name there is these bytes.
    #[inline(always)]
    fn hinted(&self, bytes: &[u8]) -> Option<usize>
        ensures number { IfSome result (λ number. position (λ other. bytes_eq other bytes.now) self.now ≡ Some number) }
        ensures name { IfSome result (λ number. IsTrue (is_name bytes.now)) }
    {
        let number = usize::from(self.hints[slot_of(bytes)]);
        if number >= self.names.len() {
            return None;
        }
        let key = self.names.get_index(number)?;
        if is_same(key.bytes, bytes) {
            Some(number)
        } else {
            None
        }
    }

    /// Adds a name that isn't there yet.
    pub fn add(&mut self, name: &Named<'t>) -> Result<(), NoMemory>
        requires { list_any (λ other. bytes_eq other name.now) self.old ≡ false }
        ensures { OnOk result (self.new ≡ self.old ++ name.now ∷ []) }
    {
        let bytes = name.bytes();
        self.hints[slot_of(bytes)] = (self.names.len() % 256) as u8;
        self.names.insert(Key { bytes })?;
        Ok(())
    }
}

/// The slot of a name's hint. Names that are numbered differ in their last bytes.
#[inline(always)]
fn slot_of(name: &[u8]) -> usize
    ensures { result < HINTS }
{
    match name {
        [first, .., third, second, last] => slot_of_bytes(*first, *third, *second, *last),
        _ => slot_of_short(name),
    }
}

/// The slot of a name of at most three bytes.
fn slot_of_short(name: &[u8]) -> usize
    ensures { result < HINTS }
{
    match name {
        [third, second, last] => slot_of_bytes(0, *third, *second, *last),
        [second, last] => slot_of_bytes(0, 0, *second, *last),
        [last] => slot_of_bytes(0, 0, 0, *last),
        _ => 0,
    }
}

/// The slot of a name's first byte and its last three.
fn slot_of_bytes(first: u8, third: u8, second: u8, last: u8) -> usize
    ensures { result < HINTS }
{
    let end = 256 * usize::from(third) + 16 * usize::from(second) + usize::from(last);
    (5 * usize::from(first) + end) % HINTS
}
