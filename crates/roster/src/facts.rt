// Whether a row keeps the limits and facts of a table.
ghost use Rattle.std.specs.Prelude.{◌≡◌, ◌≤◌, true, ◌↔◌};
ghost use Rattle.semantics.specs.System.{any};
ghost use Rattle.reader.specs.Row.{Facts};
ghost use Rattle.roster.specs.Rows.{keeps, limited, stray_step, stray_error};

use reader::Row;

// Whether the numbers of the row are within their limits.
fn is_limited(row: &Row) -> bool
    ensures { result ≡ limited row.now }
{
    (1..=64).contains(&row.states) && row.start < row.states && row.count <= 256
}

// Whether some step that the row tells does not go from a state to a state under an action of the row.
fn has_stray_step(row: &Row) -> bool
    requires { row.now.count ≤ 256 }
    ensures { result ≡ any (stray_step row.now) row.now.count }
{
    row.steps[..row.count].iter().any(|step| !row.fits(*step))
}

// Whether the row tells an error that is no state.
fn has_stray_error(row: &Row) -> bool
    ensures { result ≡ stray_error row.now }
{
    row.errors
        .iter()
        .skip(usize::from(row.states))
        .any(|told| *told)
}

// Whether the row keeps its limits and has no stray step and no stray error. With the three tests written out in
// `keeps_facts` the clause `says` there got no proof.
#[tactic(auto, unfolding(crate::specs::Rows::keeps))]
fn keeps_all(row: &Row) -> bool
    ensures { result ≡ keeps row.now }
{
    is_limited(row) && !has_stray_step(row) && !has_stray_error(row)
}

// Whether the row is one that a table may hold.
#[tactic(auto, using(crate::proofs::Tables::keeps_facts_lem))]
pub fn keeps_facts(row: &Row) -> bool
    ensures test { result ≡ keeps row.now }
    ensures says { (result ≡ true) ↔ Facts row.now }
{
    keeps_all(row)
}
