//! The job's text.
ghost use Rattle.std.specs.Prelude.{◌≡◌, ◌+◌, ◌≤◌, ◌++◌, IfOk, OnOk, string_bytes, codes};
ghost use Rattle.std.specs.List.{flat_map, range_with_len};
ghost use Rattle.generated_job.specs.Generated.{generated_text, program_line, program_call, module_call, object_word};

use std::alloc::{AllocError, Global};

/// The text of the job with `count` objects.
#[tactic(auto, unfolding(crate::specs::Generated::generated_text))]
pub fn generated_text(alloc: Global, count: u32) -> Result<Vec<u8>, AllocError>
    requires { count ≤ 1000 }
    ensures { IfOk result (λ text. text.items ≡ generated_text count) }
{
    let mut text = Vec::new(alloc);
    push_program(&mut text, alloc, count)?;
    text.extend_from_slice(b"\nimage plug late p.o\nthreads 2\n1 open plug\n")?;
    push_program_calls(&mut text, alloc, count)?;
    push_module_calls(&mut text, alloc, count)?;
    text.extend_from_slice(b"2 peek plug v 4\n2 close plug\n")?;
    Ok(text)
}

/// Appends the line of the program, which names its objects.
#[tactic(auto, unfolding(crate::specs::Generated::program_line))]
fn push_program(text: &mut Vec<u8>, alloc: Global, count: u32) -> Result<(), AllocError>
    requires { count ≤ 1000 }
    ensures { OnOk result (text.new.items ≡ text.old.items ++ program_line count) }
{
    text.extend_from_slice(b"image app exe")?;
    for before in 0..count {
        text.extend_from_slice(object_word(alloc, before + 1)?.as_bytes())?;
    }
    Ok(())
}

/// Appends the calls of the first thread, one of each function of the program.
fn push_program_calls(text: &mut Vec<u8>, alloc: Global, count: u32) -> Result<(), AllocError>
    requires { count ≤ 1000 }
    ensures { OnOk result (text.new.items ≡ text.old.items ++ flat_map program_call (range_with_len 1 count)) }
{
    for before in 0..count {
        text.extend_from_slice(program_call(alloc, before + 1)?.as_bytes())?;
    }
    Ok(())
}

/// Appends the calls of the second thread: of the module's function, with each number from 1 to `count`.
fn push_module_calls(text: &mut Vec<u8>, alloc: Global, count: u32) -> Result<(), AllocError>
    requires { count ≤ 1000 }
    ensures { OnOk result (text.new.items ≡ text.old.items ++ flat_map module_call (range_with_len 1 count)) }
{
    for before in 0..count {
        text.extend_from_slice(module_call(alloc, before + 1)?.as_bytes())?;
    }
    Ok(())
}

#[tactic(auto, unfolding(crate::specs::Generated::object_name))]
fn object_word(alloc: Global, number: u32) -> Result<String, AllocError>
    ensures { IfOk result (λ word. string_bytes word ≡ object_word number) }
{
    format!(in alloc; " g{number}.o")
}

#[tactic(auto, unfolding(crate::specs::Generated::function_name, crate::specs::Generated::program_call))]
fn program_call(alloc: Global, number: u32) -> Result<String, AllocError>
    ensures { IfOk result (λ line. string_bytes line ≡ program_call number) }
{
    format!(in alloc; "1 call app f{number} 0 0 0\n")
}

#[tactic(auto, unfolding(crate::specs::Generated::module_call))]
fn module_call(alloc: Global, number: u32) -> Result<String, AllocError>
    ensures { IfOk result (λ line. string_bytes line ≡ module_call number) }
{
    format!(in alloc; "2 call plug f {number} 0 0\n")
}
