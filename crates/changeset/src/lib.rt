// Change sets: property ids in lent half words, ascending and each once. `StyleChangeSet` of matcher.rs.
// A count stands beside its list: 2 refuses one past it.
#![tactic(auto)]

ghost use Rattle.std.specs.Prelude.{◌≡◌, [], ◌∷◌, length, eqb};
ghost use Rattle.lent.specs.Refusals.{answered, one_if};
ghost use Rattle.changeset.specs.Sets.{changing_told, emptiness_told, set_of, union_of, set_verdict, union_verdict, count_verdict, Lists};

use lent::Refusal;

pub mod held;

// `StyleChangeSet::from_property_ids`: the first `count` ids, in any order and repeated, as a set. How many are listed.
pub fn from_property_ids(ids: &[u16], count: usize, out: &mut [u16]) -> Result<usize, Refusal>
    ensures { Lists (set_verdict ids.now count out.old) (set_of ids.now count) out.old result out.new }
{
    if ids.len() < count {
        return Err(Refusal::OverSize);
    }
    let mut marks = [0u32; 2048];
    held::mark_all(&ids[..count], &mut marks);
    held::list(&marks, out)
}

// `StyleChangeSet::union`
pub fn union(a: &[u16], n: usize, b: &[u16], m: usize, out: &mut [u16]) -> Result<usize, Refusal>
    ensures { Lists (union_verdict a.now n b.now m out.old) (union_of a.now n b.now m) out.old result out.new }
{
    if a.len() < n {
        return Err(Refusal::OverSize);
    }
    if b.len() < m {
        return Err(Refusal::OverSize);
    }
    let mut both = [0u32; 2048];
    held::mark_all(&a[..n], &mut both);
    held::mark_all(&b[..m], &mut both);
    held::list(&both, out)
}

// `StyleChangeSet::len`, of the set that the first n ids are.
pub fn len(ids: &[u16], n: usize) -> Result<usize, Refusal>
    ensures { changing_told result ≡ answered (count_verdict ids.now n) (0 ∷ length (set_of ids.now n) ∷ []) }
{
    if ids.len() < n {
        return Err(Refusal::OverSize);
    }
    let mut marks = [0u32; 2048];
    held::mark_all(&ids[..n], &mut marks);
    Ok(held::count(&marks))
}

// `StyleChangeSet::is_empty`
pub fn is_empty(ids: &[u16], count: usize) -> Result<bool, Refusal>
    ensures { emptiness_told result ≡ answered (count_verdict ids.now count) (0 ∷ one_if (eqb (length (set_of ids.now count)) 0) ∷ []) }
{
    if ids.len() < count {
        return Err(Refusal::OverSize);
    }
    Ok(count == 0)
}
