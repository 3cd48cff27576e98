//! `read_text`: the bytes of a specification's file.

ghost use Rattle.std.specs.Prelude.{◌≡◌, ◌≢◌, ◌≤◌, ◌⊎◌, ℕ, List, length, IfOk, IfErr, IfSome};
ghost use Rattle.std.specs.Prelude.{IsErrOf, OnOk};
ghost use Rattle.io_core.specs.Asked.{AddsName};
ghost use Rattle.io_core.specs.Count.{Rose};
ghost use Rattle.io_core.specs.declared.faults.ReadError.TheVariants as ReadError;
ghost use Rattle.spec_grammar.specs.Limits.{file_limit as most_bytes};
ghost use Rattle.file_replies.specs.Reads.{PassesItsLimit};

use io_core::{Files, ReadError};
use spec_grammar::{MAX_FILE_BYTES, file_limit};
use std::alloc::Global;

/// The bytes of a specification's file. The file is too long if it has more of them than its
/// beginning allows.
pub fn read_text<F: Files>(alloc: Global, name: &str, files: &mut F) -> Result<Vec<u8>, ReadError>
    ensures stays { (n : List ℕ) → F.held files.new n ≡ F.held files.old n }
    ensures told { IfOk result (λ text. IfSome (F.held files.old name.now)
        (λ whole. text.items ≡ whole)) }
    ensures within { IfOk result (λ text. length text.items ≤ most_bytes text.items) }
    ensures too_long { IsErrOf result ReadError.TooLong
        → PassesItsLimit (F.held files.old name.now) }
    ensures failed { IsErrOf result ReadError.Failed
        → Rose (F.faults files.old) (F.faults files.new) }
    ensures counts { F.faults files.old ≤ F.faults files.new }
    ensures asks { OnOk result (AddsName (F.asked files.old) (F.asked files.new) name.now) }
    ensures asks_err { IfErr result (λ error. error ≢ ReadError.OutOfMemory
        → AddsName (F.asked files.old) (F.asked files.new) name.now) }
    ensures asks_memory { IsErrOf result ReadError.OutOfMemory
        → AddsName (F.asked files.old) (F.asked files.new) name.now
        ⊎ ((F.asked files.new ≡ F.asked files.old) × (F.faults files.new ≡ F.faults files.old)) }
{
    let text = files.read(alloc, name, MAX_FILE_BYTES)?;
    if text.len() > file_limit(&text) {
        return Err(ReadError::TooLong);
    }
    Ok(text)
}
