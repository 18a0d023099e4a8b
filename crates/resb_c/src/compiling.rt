//! From a text of either form to its file, which goes to the front of the caller's buffer.
//! What the calls do over files is in `files`, what they tell the caller in `report`.
ghost use Rattle.std.specs.Prelude.{◌≡◌, None};
ghost use Rattle.resb_compile.specs.Compiling as door;
ghost use Rattle.resb_write.specs.FaultOf.{fault_of};
ghost use Rattle.resb_c.specs.Compiling.{packing_in, CompilesInto, WritesBeside, WritesBy};
ghost use Rattle.resb_c.specs.Faults as faults;
ghost use Rattle.resb_c.specs.Faults.{compile_number, compile_place};
ghost use Rattle.resb_c.specs.Options.{limit_in};

use crate::fault::Fault;
use crate::files::{fill, pool_of, text_of};
use crate::options::ResbOptions;
use resb_compile::{Compile, CompileError, TextForm};
use resb_format::BinaryDeserializerError;
use resb_grammar::Expected;
use resb_icu_grammar::IcuExpected;
use resb_lent::Pool;
use resb_pool_bundle::PoolBundle;
use resb_write::BinarySerializerError;
use std::alloc::Global;

/// The number of the writer's fault.
fn tree_number(e: &BinarySerializerError) -> u32
    ensures { result ≡ faults.tree_number (fault_of e.now) }
{
    if e.is_out_of_memory() { 8 } else { 4 }
}

/// The number of the fault of a text, as the header gives it.
pub(crate) fn number(e: &CompileError) -> u32
    ensures { result ≡ compile_number e.now }
{
    match e {
        CompileError::Reading(e) => match e.expected() {
            Expected::Memory => 8,
            _ => 3,
        },
        CompileError::ReadingIcu(e) => match e.expected() {
            IcuExpected::Memory => 8,
            _ => 3,
        },
        CompileError::Writing(e) => tree_number(e),
        CompileError::Larger(_) => 10,
    }
}

/// The byte of the text at which it can't be read on, else 0.
pub(crate) fn place(e: &CompileError) -> usize
    ensures { result ≡ compile_place e.now }
{
    e.position().unwrap_or(0)
}

/// How a text of this form is compiled as the options say, over no pool bundle.
fn way<'p, 'f>(options: &ResbOptions<'_>, form: TextForm) -> Compile<'p, 'f>
    ensures form { result.form ≡ form }
    ensures packing { result.layout.packing ≡ packing_in options.now }
    ensures alone { result.layout.pool ≡ None }
    ensures rules { result.rules ≡ None }
    ensures limit { result.limit ≡ limit_in options.now }
{
    let way = match options.limit() {
        Some(limit) => Compile::new(form).within(limit),
        None => Compile::new(form),
    };
    if options.compact == 0 {
        way
    } else {
        way.compact()
    }
}

/// Compiles a text as the options say to the front of the buffer.
pub(crate) fn compile_into(
    alloc: Global,
    options: &ResbOptions<'_>,
    text: &[u8],
    out: &mut [u8],
) -> Result<usize, Fault>
    ensures { CompilesInto options.now text.now out.old out.new result }
{
    let form = options.text_form()?;
    let text = text_of(text)?;
    let way = way(options, form);
    match pool_of(options.pool)? {
        None => write_by(alloc, way, text, out),
        Some(bundle) => compile_beside(alloc, way, bundle, text, out),
    }
}

/// Compiles a text in this way over the pool bundle, which is opened for it.
fn compile_beside(
    alloc: Global,
    way: Compile<'_, '_>,
    bundle: PoolBundle<'_>,
    text: &str,
    out: &mut [u8],
) -> Result<usize, Fault>
    ensures { WritesBeside way.entry bundle.entry text.now out.old out.new result }
{
    match Pool::of(alloc, bundle) {
        Ok(pool) => compile_over(alloc, way, &pool, text, out),
        Err(_) => Err(Fault::Reading(BinaryDeserializerError::out_of_memory())),
    }
}

/// Compiles a text in this way over a pool bundle.
fn compile_over(
    alloc: Global,
    way: Compile<'_, '_>,
    pool: &Pool<'_>,
    text: &str,
    out: &mut [u8],
) -> Result<usize, Fault>
    ensures { WritesBy (door.over way.entry pool.entry) text.now out.old out.new result }
{
    write_by(alloc, way.over(pool), text, out)
}

/// Compiles a text in this way.
fn write_by(alloc: Global, way: Compile<'_, '_>, text: &str, out: &mut [u8]) -> Result<usize, Fault>
    ensures { WritesBy way.entry text.now out.old out.new result }
{
    match way.text(alloc, text) {
        Ok(file) => fill(&file, out).map_err(Fault::TooShort),
        Err(e) => Err(Fault::Compiling(e)),
    }
}
