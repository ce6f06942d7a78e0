//! Files in memory, by name.

ghost use Rattle.std.specs.Prelude.{◌≡◌, ◌<◌, ◌≤◌, length, IfOk, IsSomeAnd, IsErrOf, option_copied};
ghost use Rattle.outside.specs.Depot.{content, files_of};

use crate::DepotRefusal;
use et_base::Text;
use std::alloc::Global;

/// The bytes of the first file that has the name.
fn find<'a>(files: &'a [(Text, Vec<u8>)], name: &Text) -> Option<&'a [u8]>
    ensures { option_copied result ≡ content (files_of files.now) name.now }
{
    for (key, bytes) in files {
        if key.as_slice() == name.as_slice() {
            return Some(bytes.as_slice());
        }
    }
    None
}

/// A copy of the first file that has the name.
pub(crate) fn read_file(
    alloc: Global,
    files: &[(Text, Vec<u8>)],
    name: &Text,
    limit: u64,
) -> Result<Vec<u8>, DepotRefusal>
    ensures within { IfOk result (λ bytes. length bytes.items ≤ limit) }
    ensures bytes { IfOk result (λ bytes. content (files_of files.now) name.now ≡ Some bytes.items) }

    ensures absent { IsErrOf result DepotRefusal.Absent → content (files_of files.now) name.now ≡ None }
    ensures too_long { IsErrOf result DepotRefusal.TooLong →
        IsSomeAnd (content (files_of files.now) name.now) (λ bytes. limit < length bytes) }
    ensures failed { IsErrOf result DepotRefusal.Failed → ⊥ }
{
    let Some(bytes) = find(files, name) else {
        return Err(DepotRefusal::Absent);
    };
    if bytes.len() as u64 > limit {
        return Err(DepotRefusal::TooLong);
    }
    Ok(Vec::from_slice(alloc, bytes)?)
}
