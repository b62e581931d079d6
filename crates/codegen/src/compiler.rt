//! From a module to code.

ghost use Rattle.std.specs.Prelude.{◌≡◌, ◌∷◌, ◌++◌, [], IfErr, IfOk, OnOk, map, string_bytes};
ghost use Rattle.codegen_machine.specs.Seen.{function_of_procedure};
ghost use Rattle.codegen_machine.specs.Machine.{code_of};
ghost use Rattle.codegen_machine.specs.Calls.{functions_of};
ghost use Rattle.codegen_machine.specs.Modules.{arities_of};
ghost use Rattle.codegen.specs.Behaves.{BehavesAs};
ghost use Rattle.codegen.specs.FrameSizes.{HaveFramesOf, StaysInRoom};
ghost use Rattle.codegen.specs.Compiled.{IsCodeOf, IsNamedCodeOf};
ghost use Rattle.codegen.specs.Reasons.{IsCompileReason, IsModuleReason, compile_error_text};

use super::registers::target;
use codegen_emit::emit::emit;
use codegen_machine::{Code, Module, ModuleCode, NamedCode, NamedProcedure, Procedure};
use regalloc2::{TestedRunError, run_tested};
use regalloc2_semantics::values::runs_alike;
use std::alloc::Global;
use std::error::Error;
use std::fmt;

/// Why a function isn't compiled.
#[derive(Debug, Drop)]
pub enum CompileError {
    /// The allocator rejected it.
    Refused(TestedRunError),
    /// Memory ran out while code was emitted.
    Memory,
}

impl fmt::Display for CompileError {
    ghost use Rattle.std.specs.Prelude.{Some};

    ghost output = { λ e. Some (compile_error_text e) };

    fn fmt<W: fmt::Write>(&self, f: &mut fmt::Formatter<W>) -> fmt::Result {
        match self {
            CompileError::Refused(error) => write!(f, "{error}"),
            CompileError::Memory => write!(f, "out of memory"),
        }
    }
}

impl Error for CompileError {}

/// Compiles a function: tests it, allocates registers, and emits its code.
fn compile_one(alloc: Global, f: &Procedure) -> Result<Code, CompileError>
    ensures code { IfOk result (λ code. IsCodeOf f.now (code_of code)) }
    ensures refused { IfErr result (IsCompileReason (function_of_procedure f.now)) }
{
    let env = target(alloc);
    let out = match run_tested(alloc, f, &env) {
        Ok(out) => out,
        Err(error) => return Err(CompileError::Refused(error)),
    };
    runs_alike();
    match emit(alloc, f, &out) {
        Ok(code) => Ok(code),
        Err(_) => Err(CompileError::Memory),
    }
}

/// Compiles a function of a module.
fn compile_named(alloc: Global, f: &NamedProcedure) -> Result<NamedCode, CompileError>
    ensures code { IfOk result (λ c. IsNamedCodeOf f.now c) }
    ensures refused { IfErr result (IsCompileReason (function_of_procedure f.now.procedure)) }
{
    let code = compile_one(alloc, &f.procedure)?;
    match f.name.clone() {
        Ok(name) => Ok(NamedCode {
            name,
            arity: f.arity,
            code,
        }),
        Err(_) => Err(CompileError::Memory),
    }
}

/// Appends a function.
fn add(functions: &mut Vec<NamedCode>, function: NamedCode) -> Result<(), CompileError>
    ensures added { OnOk result (functions.new.items ≡ functions.old.items ++ function ∷ []) }
    ensures memory { IfErr result (λ e. e ≡ CompileError.Memory) }
{
    match functions.push(function) {
        Ok(()) => Ok(()),
        Err(_) => Err(CompileError::Memory),
    }
}

/// Compiles the module `m` into code that behaves as it does.
///
/// The code behaves so for all arguments, initial memories and stacks. Each function keeps its name
/// and its number of arguments. A frame has at most two slots for each vreg and twelve for each
/// block of its function. Where the stack has room for frames of that size, the code never
/// overflows.
///
/// # Errors
///
/// The allocator's, for one of the functions, or `Memory`. Not guaranteed: that `Memory` is returned
/// only after a failed allocation.
pub fn compile(alloc: Global, m: &Module) -> Result<ModuleCode, CompileError>
    ensures behaves { IfOk result (λ c. BehavesAs m.now (functions_of c.functions.items)) }
    ensures names { IfOk result (λ c. map (λ f. string_bytes f.name) c.functions.items ≡ map (λ p. string_bytes p.name) m.now.procedures.items) }
    ensures arities { IfOk result (λ c. map (λ f. f.arity) c.functions.items ≡ arities_of m.now.procedures.items) }
    ensures frames { IfOk result (λ c. HaveFramesOf m.now.procedures.items (functions_of c.functions.items)) }
    ensures room { IfOk result (λ c. StaysInRoom m.now (functions_of c.functions.items)) }
    ensures refused { IfErr result (IsModuleReason m.now.procedures.items) }
{
    let mut functions = Vec::new(alloc);
    for g in 0..m.procedures.len() {
        let function = compile_named(alloc, &m.procedures[g])?;
        add(&mut functions, function)?;
    }
    Ok(ModuleCode { functions })
}
