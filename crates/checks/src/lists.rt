// Inner: a store list that refusals 2 to 6 do not refuse.
ghost use Rattle.std.specs.Prelude.{◌≡◌};
ghost use Rattle.checks.specs.Refusals.{first, lists, list_rows};

use cellfile::records::Entries;

#[derive(Clone, Copy)]
pub struct StoreList<'a> {
    pub entries: Entries<'a>,
    pub ghost accepted: { first (list_rows lists entries.file.now) ≡ 0 },
}
