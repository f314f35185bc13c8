// A log that is no longer than a log may be.
ghost use Rattle.std.specs.Prelude.{◌≡◌, ◌≤◌, leb, length, is_ok, IfErr, IfOk};
ghost use Rattle.fields.specs.Limits.{log_bytes};

use super::{Log, Refusal};

#[derive(Clone, Copy)]
pub struct ShortLog<'a> {
    pub bytes: &'a [u8],
    ghost fits: { length bytes.now ≤ log_bytes },
}

impl<'a> ShortLog<'a> {
    // 1: the bytes of a log, where they are not too many.
    pub fn of(bytes: &'a [u8]) -> Result<ShortLog<'a>, Refusal>
        ensures fits { is_ok result ≡ leb (length bytes.now) log_bytes }
        ensures same { IfOk result (λ log. log.bytes.now ≡ bytes.now) }
        ensures refused { IfErr result (λ why. why ≡ Refusal.LogTooLong) }
    {
        if Log::BYTES < bytes.len() {
            return Err(Refusal::LogTooLong);
        }
        Ok(ShortLog { bytes })
    }
}
