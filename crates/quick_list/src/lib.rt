// The listing with a summary: the way to the leaf for the lowest key, and the leaves from there on. The table is not checked.
#![tactic(auto)]

ghost use Rattle.std.specs.Prelude.{◌≡◌};
ghost use Rattle.model.specs.Summary.{quick_listed, quick_list_out};

use model::Listed;

// Lists the pairs of a collection with keys from low to high; 2, 17 and 26, then 4 by the nodes on the way. On any words it ends: at most N
// leaves are looked at. A refusal changes no word.
pub fn list(
    table: &[u64],
    summary: &[u64],
    collection: u64,
    low: u64,
    high: u64,
    out: &mut [u64],
) -> Listed
    ensures value { result ≡ quick_listed collection summary.now table.now low high out.old }
    ensures out_after { out.new ≡ quick_list_out collection summary.now table.now low high out.old }
{
    let way = quick::begin(table, summary, collection, low)?;
    let first = way::on_level(way, 0);
    Ok(listing::list_from(table, first, low, high, out))
}
