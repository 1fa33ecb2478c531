//! Whether a client takes a batch.
ghost use Rattle.std.specs.Prelude.{◌≡◌, ◌<◌, ◌^◌, ◌⊎◌, length, IfOk, IfErr, IfSome, None, Some, Err, alloc_error};
ghost use Rattle.fs_queue.specs.Refusal.{broken_from};
ghost use Rattle.fs_queue.specs.declared.error.QueueError.TheVariants.{Memory};

use crate::error::QueueError;
use fs_write::{Write, check_with};
use std::alloc::Global;

/// Whether each of these writes keeps to the rules; else the first that doesn't is told, with the least rule that it breaks.
pub(crate) fn check_rules(alloc: Global, writes: &[Write]) -> Result<(), QueueError>
    requires { length writes.now < 2 ^ 32 }
    ensures ok { IfOk result (λ _. broken_from 0 writes.now ≡ None) }
    ensures refused { IfSome (broken_from 0 writes.now) (λ e. (result ≡ Err e) ⊎ (result ≡ Err (Memory alloc_error))) }
    ensures memory { broken_from 0 writes.now ≡ None → IfErr result (λ e. e ≡ Memory alloc_error) }
{
    let mut number = 0;
    for write in writes {
        if let Some(rule) = check_with(alloc, write)? {
            return Err(QueueError::Rule(rule, number));
        }
        number += 1;
    }
    Ok(())
}
