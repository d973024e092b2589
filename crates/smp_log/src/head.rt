ghost use Rattle.std.specs.Prelude.{◌≡◌, length};
ghost use Rattle.hex.specs.Hex.{encode_lower};
ghost use Rattle.sha2.specs.Sha256.{sha256};
ghost use Rattle.smp_log.specs.{Heads.{IsHead, head_of}, SectionLogs.{sectioned_head}};

use sha2::{Digest, Sha256};
use smp_frac::put;
use std::marker::Model;

/// The first three lines of a log, in 157 bytes. It is seen as these bytes.
#[derive(Drop)]
pub struct Head {
    bytes: [u8; 157],
}

impl Model for Head {
    ghost use Rattle.std.specs.Prelude.{List, ℕ};
    ghost use Rattle.smp_log.specs.Heads.{IsHead};

    ghost Value = { List ℕ };

    ghost view = { λ h. h.bytes };

    ghost invariant = { λ h. IsHead h.bytes };
}

impl Head {
    /// The bytes of the lines.
    pub fn as_slice(&self) -> &[u8]
        ensures bytes { result.now ≡ self.now }
        ensures length { length result.now ≡ 157 }
        ensures lines { IsHead self.now }
    {
        &self.bytes
    }

    // The first three lines of a log of version 2: the first one has the number 2 in the place of 1.
    pub(crate) fn sectioned(&self) -> [u8; 157]
        ensures bytes { result ≡ sectioned_head self.now }
        ensures lines { IsHead self.now }
    {
        let mut bytes = self.bytes;
        bytes[12] = b'2';
        bytes
    }
}

fn digest_digits(bytes: &[u8]) -> [u8; 64]
    ensures digits { result ≡ encode_lower (sha256 bytes.now) }
    ensures length { length result ≡ 64 }
{
    let mut digits = [0; 64];
    let _ = hex::encode_to_slice(Sha256::digest(bytes), &mut digits);
    digits
}

/// The first lines of a log for these bytes of a design and of a frame: the version, and the SHA-256 of both in lower
/// case hexadecimal digits.
pub fn log_head(design: &[u8], frame: &[u8]) -> Head
    ensures { result ≡ head_of design.now frame.now }
{
    Head {
        bytes: head_bytes(design, frame),
    }
}

fn head_bytes(design: &[u8], frame: &[u8]) -> [u8; 157]
    ensures { result ≡ head_of design.now frame.now }
{
    let mut bytes = [0; 157];
    put(&mut bytes, 0, b"sampler-log 1\n");
    put(&mut bytes, 14, b"design ");
    put(&mut bytes, 21, &digest_digits(design));
    put(&mut bytes, 85, b"\n");
    put(&mut bytes, 86, b"frame ");
    put(&mut bytes, 92, &digest_digits(frame));
    put(&mut bytes, 156, b"\n");
    bytes
}
