//! What the `vm` and `file` lines of a trace ask for.
ghost use Rattle.std.specs.Prelude.{◌≡◌, ◌≢◌, [], false, length, map, IfOk, IfErr};
ghost use Rattle.frames.specs.Given.{given_files};
ghost use Rattle.trace_words.specs.Declarations.{file_at, has_long};

use arrayvec::ArrayVec;
use frames::FileSpec;
use machine_model::{CallLimit, Setup, SetupFault, first_fault_within};
use std::alloc::{AllocError, Allocator};
use std::marker::Model;
use trace_text::file_line::file_bytes;
use vm_base::Mode;
use vm_base::limits::FILE_BYTES;

/// How many files are kept: one more than a space may have, so that too many are seen.
const KEPT: usize = 17;

/// A file as its line asks for it.
#[derive(Clone, Copy)]
pub struct FileLine {
    /// For what it is open.
    pub mode: Mode,
    /// How many bytes it has.
    pub len: u64,
    /// Its first byte; each byte is one more than the one before it, modulo 256.
    pub seed: u8,
}

impl Default for FileLine {
    fn default() -> FileLine {
        FileLine {
            mode: Mode::R,
            len: 0,
            seed: 0,
        }
    }
}

/// What the `vm` line and the `file` lines after it ask for. It takes no memory: the
/// bytes of a file are made where a setup is.
#[derive(Drop)]
pub struct Declaration {
    cores: u64,
    frames: u64,
    calls: u64,
    /// The number of the next file.
    next: u64,
    /// The first files.
    files: ArrayVec<FileLine, KEPT>,
}

impl Model for Declaration {
    ghost use Rattle.std.specs.Prelude.{◌≤◌, length};
    ghost use Rattle.trace_words.specs.Declarations.{DeclarationView};

    ghost Value = { DeclarationView };

    ghost view = { λ s. record {
      cores = s.cores;
      frames = s.frames;
      calls = s.calls;
      next = s.next;
      files = s.files.items;
    } };

    ghost invariant = { λ s. length s.files.items ≤ 17 };
}

// Tells whether one of the files has more bytes than a file may have.
fn has_long(files: &[FileLine]) -> bool
    ensures { result ≡ has_long files.now }
{
    files.iter().any(|file| file.len > FILE_BYTES)
}

// The files with their bytes. No files take no memory.
fn specs_of<A: Allocator + Clone>(
    alloc: A,
    files: &[FileLine],
) -> Result<Vec<FileSpec<A>, A>, AllocError>
    requires { has_long files.now ≡ false }
    ensures given { IfOk result (λ specs. given_files specs.items ≡ file_at files.now) }
    ensures asked { IfErr result (λ refused. files.now ≢ []) }
    ensures lengths { IfOk result (λ specs.
        map (λ spec. length spec.bytes.items) specs.items ≡ map (λ file. file.len) files.now) }
{
    if files.is_empty() {
        return Ok(Vec::new(alloc));
    }
    let mut specs = Vec::with_capacity(alloc.clone()?, files.len())?;
    'files: for file in files {
        let bytes = file_bytes(alloc.clone()?, file.len, file.seed)?;
        specs.push_reserved(FileSpec {
            mode: file.mode,
            bytes,
        });
    }
    Ok(specs)
}

impl Declaration {
    ghost use Rattle.std.specs.Prelude.{◌≡◌, ◌≢◌, [], true, false, None, IfOk, IfErr};
    ghost use Rattle.machine_model.specs.Setups.{fault_of, fault_within, made_of};
    ghost use Rattle.machine_model.specs.declared.setup.CallLimit.{CallLimit};
    ghost use Rattle.trace_words.specs.Declarations.{asks_for, has_long, is_next, with_file, made_by};
    ghost use Rattle.trace_words.specs.Declarations.{asked_fault, asked_fault_within};

    /// What a `vm` line asks for. No file is asked for yet.
    pub fn new(cores: u64, frames: u64, calls: u64) -> Declaration
        ensures { result ≡ asks_for cores frames calls }
    {
        Declaration {
            cores,
            frames,
            calls,
            next: 0,
            files: ArrayVec::new(),
        }
    }

    /// How many cores are asked for.
    pub fn cores(&self) -> u64
        ensures { result ≡ self.now.cores }
    {
        self.cores
    }

    /// How many frames are asked for.
    pub fn frames(&self) -> u64
        ensures { result ≡ self.now.frames }
    {
        self.frames
    }

    /// How many calls are asked for.
    pub fn calls(&self) -> u64
        ensures { result ≡ self.now.calls }
    {
        self.calls
    }

    /// The files that are kept, in order of their numbers.
    pub fn files(&self) -> &[FileLine]
        ensures { result.now ≡ self.now.files }
    {
        self.files.as_slice()
    }

    /// Takes in a file that has the next number, and tells whether it has. No file has
    /// the number 2^64 - 1.
    pub fn add(&mut self, number: u64, file: FileLine) -> bool
        ensures told { result ≡ is_next self.old number }
        ensures added { result ≡ true → self.new ≡ with_file self.old file }
        ensures kept { result ≡ false → self.new ≡ self.old }
    {
        if number != self.next {
            return false;
        }
        let Some(next) = number.checked_add(1) else {
            return false;
        };
        self.next = next;
        if self.files.len() < KEPT {
            self.files.push(file);
        }
        true
    }

    /// The first fault of what is asked for, except for want of memory. At most 1,048,576 calls may be.
    pub fn fault(&self) -> Option<SetupFault>
        ensures { result ≡ asked_fault self.now }
    {
        self.fault_within(CallLimit::Usual)
    }

    /// The first fault of what is asked for, except for want of memory, where this limit of calls holds.
    pub fn fault_within(&self, limit: CallLimit) -> Option<SetupFault>
        ensures { result ≡ asked_fault_within limit self.now }
    {
        let files = self.files.len() as u64;
        first_fault_within(
            limit,
            self.cores,
            self.frames,
            files,
            has_long(self.files.as_slice()),
            self.calls,
        )
    }

    /// The setup that is asked for, where it has no fault. The bytes of its files are made
    /// here, and the error says that memory for them ran out. No files take no memory.
    pub fn setup<A: Allocator + Clone>(&self, alloc: A) -> Result<Setup<A>, AllocError>
        requires { asked_fault self.now ≡ None }
        ensures asked { IfErr result (λ refused. self.now.files ≢ []) }
        ensures sound { IfOk result (λ setup. fault_of setup ≡ None) }
        ensures made { IfOk result (λ setup. made_of setup ≡ made_by self.now) }
    {
        let setup = self.setup_as_asked(alloc)?;
        Ok(setup)
    }

    /// As `setup`, where no file is too long: the setup has the faults of what is asked for.
    pub fn setup_as_asked<A: Allocator + Clone>(&self, alloc: A) -> Result<Setup<A>, AllocError>
        requires { has_long self.now.files ≡ false }
        ensures asked { IfErr result (λ refused. self.now.files ≢ []) }
        ensures faults { IfOk result (λ setup. (limit : CallLimit)
            → fault_within limit setup ≡ asked_fault_within limit self.now) }
        ensures made { IfOk result (λ setup. made_of setup ≡ made_by self.now) }
    {
        let files = specs_of(alloc, self.files.as_slice())?;
        Ok(Setup {
            cores: self.cores,
            frames: self.frames,
            files,
            calls: self.calls,
        })
    }
}
