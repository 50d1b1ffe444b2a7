// Names as the keys of a table. A name is hashed in one go, where a list is hashed byte by byte.

ghost use Rattle.std.specs.Prelude.{◌≡◌, [], ◌∷◌, bytes_eq};
ghost use Rattle.std.proofs.Common.{ap};
ghost use Rattle.std.specs.Cmp.{partial_equiv_from_equiv, on_per, on_equiv};
ghost use Rattle.std.specs.Cmp.Lexicographic.{bytes_decides, nat_list_eq_equiv};

use indexmap::Equivalent;
use std::hash::{Hash, Hasher};

/// A name that a table keeps.
#[derive(Debug, Drop)]
pub struct NameKey {
    pub bytes: Vec<u8>,
}

impl PartialEq for NameKey {
    ghost eq = { λ a b. bytes_eq a.bytes.items b.bytes.items };

    ghost laws = { on_per (λ key. key.bytes.items) (partial_equiv_from_equiv nat_list_eq_equiv) };

    fn eq(&self, other: &Self) -> bool {
        self.bytes.as_slice() == other.bytes.as_slice()
    }
}

impl Eq for NameKey {
    ghost laws = { on_equiv (λ key. key.bytes.items) nat_list_eq_equiv };
}

impl Hash for NameKey {
    ghost hash_input = { λ key. key.bytes.items ∷ [] };

    ghost respects_eq = { λ a b h. ap (λ bytes. bytes ∷ []) ((bytes_decides a.bytes.items b.bytes.items).0 h) };

    fn hash<H: Hasher>(&self, state: &mut H) {
        state.write(self.bytes.as_slice());
    }
}

/// The bytes by which a name is looked up.
#[derive(Clone, Copy)]
pub struct Spelling<'a> {
    pub bytes: &'a [u8],
}

impl PartialEq for Spelling<'_> {
    ghost eq = { λ a b. bytes_eq a.bytes.now b.bytes.now };

    ghost laws = { on_per (λ spelling. spelling.bytes.now) (partial_equiv_from_equiv nat_list_eq_equiv) };

    fn eq(&self, other: &Self) -> bool {
        self.bytes == other.bytes
    }
}

impl Eq for Spelling<'_> {
    ghost laws = { on_equiv (λ spelling. spelling.bytes.now) nat_list_eq_equiv };
}

impl Hash for Spelling<'_> {
    ghost hash_input = { λ spelling. spelling.bytes.now ∷ [] };

    ghost respects_eq = { λ a b h. ap (λ bytes. bytes ∷ []) ((bytes_decides a.bytes.now b.bytes.now).0 h) };

    fn hash<H: Hasher>(&self, state: &mut H) {
        state.write(self.bytes);
    }
}

impl Equivalent<NameKey> for Spelling<'_> {
    ghost equivalent = { λ spelling key. bytes_eq spelling.bytes.now key.bytes.items };

    ghost respects_hash = { λ spelling key h. ap (λ bytes. bytes ∷ []) ((bytes_decides spelling.bytes.now key.bytes.items).0 h) };

    ghost respects_eq = { λ spelling a b. nat_list_eq_equiv.congr spelling.bytes.now a.bytes.items b.bytes.items };

    fn equivalent(&self, key: &NameKey) -> bool {
        self.bytes == key.bytes.as_slice()
    }
}
