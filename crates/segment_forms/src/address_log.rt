// The addresses that a finder was given. They exist only in contracts.
ghost use Rattle.std.specs.Prelude.{◌≡◌, ℕ, List, [], ◌∷◌, ◌++◌};
ghost use Rattle.std.specs.Borrow.{ftrue};
ghost use Rattle.std.specs.Coded.{coded_list, coded_ℕ};

use std::marker::Model;

/// A list of addresses, which takes no memory.
#[derive(Drop)]
pub(crate) struct AddressLog {
    ghost addresses: { List (List ℕ) } by { coded_list (coded_list coded_ℕ) },
}

impl Model for AddressLog {
    ghost also_owns = { λ _. ftrue };
}

/// One address.
#[derive(Clone, Copy, Drop)]
pub(crate) struct Given<'a> {
    pub address: &'a str,
}

impl AddressLog {
    pub(crate) fn new() -> AddressLog
        ensures { result.addresses ≡ [] }
    {
        AddressLog {}
    }

    /// The list with one more address.
    #[inline(always)]
    pub(crate) fn and(&self, _given: &Given<'_>) -> AddressLog
        ensures { result.addresses ≡ self.now.addresses ++ _given.now.address.now ∷ [] }
    {
        AddressLog {}
    }
}
