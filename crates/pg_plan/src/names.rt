//! The names of the files in a plan's folder.
ghost use Rattle.std.specs.Prelude.{◌≡◌, IfOk, codes, string_bytes};
ghost use Rattle.pg_plan.specs.Names.{name_in, numbered_name};

use pg_base::Memory;
use std::alloc::Global;

/// Returns the name of the plan's file in `folder`: `FOLDER/plan`.
///
/// # Errors
///
/// `Memory` if memory runs out.
pub fn plan_name(alloc: Global, folder: &str) -> Result<String, Memory>
    ensures { IfOk result (λ name. string_bytes name ≡ name_in folder.now (codes "plan")) }
{
    let name = format!(in alloc; "{folder}/plan")?;
    Ok(name)
}

/// Returns the name of a numbered file in `folder`: the last five digits of `file`, and `ending`.
fn numbered(alloc: Global, folder: &str, file: u32, ending: &str) -> Result<String, Memory>
    ensures { IfOk result
        (λ name. string_bytes name ≡ numbered_name folder.now file ending.now) }
{
    let a = file / 10_000 % 10;
    let b = file / 1_000 % 10;
    let c = file / 100 % 10;
    let d = file / 10 % 10;
    let e = file % 10;
    let name = format!(in alloc; "{folder}/{a}{b}{c}{d}{e}{ending}")?;
    Ok(name)
}

/// Returns the name of game file `file` of the plan in `folder`: `FOLDER/00012.game` for 12.
///
/// Game files have numbers from 1 to 99,999. Of a greater number only the last five digits are
/// used.
///
/// # Errors
///
/// `Memory` if memory runs out.
pub fn game_name(alloc: Global, folder: &str, file: u32) -> Result<String, Memory>
    ensures { IfOk result
        (λ name. string_bytes name ≡ numbered_name folder.now file (codes ".game")) }
{
    numbered(alloc, folder, file, ".game")
}

/// Returns the name of the certificate of a plan's game file, which is beside it in `folder`:
/// `FOLDER/00012.cert` for 12.
///
/// Game files have numbers from 1 to 99,999. Of a greater number only the last five digits are
/// used.
///
/// # Errors
///
/// `Memory` if memory runs out.
pub fn cert_name(alloc: Global, folder: &str, file: u32) -> Result<String, Memory>
    ensures { IfOk result
        (λ name. string_bytes name ≡ numbered_name folder.now file (codes ".cert")) }
{
    numbered(alloc, folder, file, ".cert")
}
