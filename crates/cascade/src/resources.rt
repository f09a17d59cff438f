// The properties that depend on resources.
ghost use Rattle.changeset.specs.Sets.{Lists};
ghost use Rattle.changes.specs.Changes.{resource_dependent};
ghost use Rattle.cascade.specs.Calls.{resource_verdict};

use changes::held::resources;
use changeset::held::list;
use lent::Refusal;
use sheet::Sheet;

// `StyleCascade::resource_dependent_properties`: in any source, matched or not.
pub fn resource_dependent_properties(sheet: &[u32], out: &mut [u16]) -> Result<usize, Refusal>
    ensures { Lists (resource_verdict sheet.now out.old) (resource_dependent sheet.now) out.old result out.new }
{
    let Some(sheet) = Sheet::of(sheet) else {
        return Err(Refusal::BrokenShape);
    };
    let mut marks = [0u32; 2048];
    resources(sheet, &mut marks);
    list(&marks, out)
}
