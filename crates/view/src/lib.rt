// The view, which holds a lent list and serves its entries: the calls view_of, serve and entry_of. See specs/Serving.
#![tactic(auto)]

mod lent;

ghost use Rattle.std.specs.Prelude.{◌≡◌};
ghost use Rattle.view.specs.Serving.{served, serving, shown as shown_of};

use cellfile::decode::{self, Entry};
use cellfile::records::Entries;
pub use lent::View;

// How many entries the list shows: none where refusals 2 to 6 say no.
fn shown(list: &[u8]) -> usize
    ensures { result ≡ shown_of list.now }
{
    checks::check_list(list).map_or(0, |accepted| accepted.entries.m)
}

// The view of the list.
pub fn view_of(list: &[u8]) -> View<'_>
    ensures { (result.list ≡ list.entry) × (result.count ≡ shown_of list.now) }
{
    View {
        list,
        count: shown(list),
    }
}

// The entry at a place of the view.
pub fn serve(v: View, place: usize) -> Option<Entry>
    ensures { served result ≡ serving v.entry.list.now place }
{
    if v.count <= place {
        return None;
    }
    let n = decode::header_at(v.list).n;
    let entries = Entries::new(v.list, n, v.count);
    Some(entries.get(place))
}

// The entry at a place of the list, for callers that hold no view.
pub fn entry_of(list: &[u8], place: usize) -> Option<Entry>
    ensures { served result ≡ serving list.now place }
{
    serve(view_of(list), place)
}
