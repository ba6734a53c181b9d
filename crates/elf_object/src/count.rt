//! The number of relocations of objects.

ghost use Rattle.std.specs.Prelude.{◌≡◌, ◌+◌, ◌*◌, ◌<◌, ◌≤◌, ◌^◌, length};
ghost use Rattle.std.specs.List.{All};
ghost use Rattle.elf_object.specs.Checked.{IsRead};
ghost use Rattle.elf_object.specs.Faults.{IsObject};
ghost use Rattle.elf_object.specs.Lent.{relocations};
ghost use Rattle.elf_object.specs.Counts.{own_count, relocation_count};

use crate::Object;
use crate::relocs::{relocs_in, table_of};
use object_faults::Tables;

/// The number of relocations of an object's sections that linking keeps.
#[tactic(auto, unfolding(crate::specs::Counts::own_count))]
pub fn own_count(tables: &Tables, targets: &[u32]) -> u64
    requires { IsRead tables.now.bytes.now targets.now }
    ensures count { result ≡ own_count tables.now.bytes.now }
    ensures few { result ≤ 2 ^ 36 }
{
    let mut count = 0;
    for section in 1..tables.count {
        count += relocs_in(tables, table_of(tables, targets, section)).len();
    }
    count
}

/// The number of relocations of the objects' sections that linking keeps.
pub fn relocation_count(objects: &[Object]) -> u128
    ensures count { result ≡ relocation_count objects.now }
    ensures objects { All IsObject objects.now }
{
    let mut count = 0;
    for object in objects {
        count += u128::from(object.relocation_count());
    }
    count
}
