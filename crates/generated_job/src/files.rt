//! The objects of the job, as files.
ghost use Rattle.std.specs.Prelude.{◌≡◌, ◌+◌, ◌≤◌, ◌*◌, ◌%◌, ◌^◌, IfOk, string_bytes, string_len, ◌<◌, length, codes};
ghost use Rattle.generated_job.specs.Accesses.{shape_with};
ghost use Rattle.generated_job.specs.Generated.{object_name, function_name, variable_name, generated_files, module_shape};
ghost use Rattle.generated_job.specs.Shapes.{object_bytes};

use crate::access::Access;
use crate::shape::ObjectShape;
use std::alloc::{AllocError, Global};
use std::marker::Model;

/// A generated file: its name and its bytes.
#[derive(Drop)]
pub struct GeneratedFile {
    name: String,
    content: Vec<u8>,
}

impl Model for GeneratedFile {
    ghost use Rattle.std.specs.Prelude.{ℕ, List, string_bytes};

    ghost Value = { List ℕ × List ℕ };

    ghost view = { λ a. (string_bytes a.name, a.content.items) };
}

impl GeneratedFile {
    /// The file's name.
    pub fn name(&self) -> &str
        ensures { result.now ≡ self.now.0 }
    {
        self.name.as_str()
    }

    /// The file's bytes.
    pub fn bytes(&self) -> &[u8]
        ensures { result.now ≡ self.now.1 }
    {
        self.content.as_slice()
    }
}

/// The objects of the job with `count` objects, and after them that of the module.
pub fn generated_objects(alloc: Global, count: u32) -> Result<Vec<GeneratedFile>, AllocError>
    requires { count ≤ 1000 }
    ensures { IfOk result (λ files. files.items ≡ generated_files count) }
{
    let mut files = Vec::new(alloc);
    let mut value = count;
    for before in 0..count {
        value = value_behind(value);
        files.push(program_object(alloc, before + 1, value)?)?;
    }
    files.push(module_object(alloc)?)?;
    Ok(files)
}

/// The initial value of an object's variable, if `value` is that of the object before it.
fn value_behind(value: u32) -> u32
    ensures { result ≡ (5 * value + 3) % 2 ^ 32 }
{
    ((5 * u64::from(value) + 3) % (1 << 32)) as u32
}

/// An object of the program, whose variable has this initial value.
fn program_object(alloc: Global, number: u32, value: u32) -> Result<GeneratedFile, AllocError>
    requires { number ≤ 1000 }
    ensures { IfOk result (λ file. file ≡ (object_name number, object_bytes (shape_with number value))) }
{
    let function = function_name(alloc, number)?;
    let variable = variable_name(alloc, number)?;
    let access = Access::of_object(number);
    let relocations = access.relocations(alloc)?;
    let shape = ObjectShape {
        function: function.as_bytes(),
        variable: variable.as_bytes(),
        code: access.code(),
        relocations: relocations.as_slice(),
        initial: &value.to_le_bytes(),
        zeros: 0,
        calls: access.calls(),
    };
    let content = shape.bytes(alloc)?;
    Ok(GeneratedFile {
        name: object_name(alloc, number)?,
        content,
    })
}

/// The object of the module, whose function writes to its variable.
fn module_object(alloc: Global) -> Result<GeneratedFile, AllocError>
    ensures { IfOk result (λ file. file ≡ (codes "p.o", object_bytes module_shape)) }
{
    let access = Access::GeneralDynamicWrite;
    let relocations = access.relocations(alloc)?;
    let shape = ObjectShape {
        function: b"f",
        variable: b"v",
        code: access.code(),
        relocations: relocations.as_slice(),
        initial: &[5, 0, 0, 0],
        zeros: 4,
        calls: access.calls(),
    };
    let content = shape.bytes(alloc)?;
    Ok(GeneratedFile {
        name: String::from_str(alloc, "p.o")?,
        content,
    })
}

#[tactic(auto, unfolding(crate::specs::Generated::object_name))]
pub(crate) fn object_name(alloc: Global, number: u32) -> Result<String, AllocError>
    ensures { IfOk result (λ name. string_bytes name ≡ object_name number) }
{
    format!(in alloc; "g{number}.o")
}

#[tactic(auto, unfolding(crate::specs::Generated::function_name))]
pub(crate) fn function_name(alloc: Global, number: u32) -> Result<String, AllocError>
    ensures { IfOk result (λ name. string_bytes name ≡ function_name number) }
{
    format!(in alloc; "f{number}")
}

#[tactic(auto, unfolding(crate::specs::Generated::variable_name))]
fn variable_name(alloc: Global, number: u32) -> Result<String, AllocError>
    ensures { IfOk result (λ name. string_bytes name ≡ variable_name number) }
{
    format!(in alloc; "x{number}")
}
