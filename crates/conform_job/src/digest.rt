//! The digest of a job.
ghost use Rattle.std.specs.Prelude.{◌≡◌};
ghost use Rattle.std.specs.Option.{option_copied};
ghost use Rattle.conform_job.specs.Digest.{digest_of};

use sha2::{Digest, Sha256};

/// The digest of a job: SHA-256 (FIPS 180-4) of the bytes of the project, the list and the cube, each after its length as
/// eight bytes, most significant first. No cube is the length all ones and no bytes. Takes no memory.
#[tactic(auto, unfolding(crate::specs::Digest::digest_of))]
pub fn job_digest(project: &[u8], edl: &[u8], cube: Option<&[u8]>) -> [u8; 32]
    ensures { result ≡ digest_of project.now edl.now (option_copied cube.entry) }
{
    let mut hasher = Sha256::new();
    hasher.update((project.len() as u64).to_be_bytes());
    hasher.update(project);
    hasher.update((edl.len() as u64).to_be_bytes());
    hasher.update(edl);
    match cube {
        Some(bytes) => {
            hasher.update((bytes.len() as u64).to_be_bytes());
            hasher.update(bytes);
            hasher.finalize()
        }
        None => {
            hasher.update(u64::MAX.to_be_bytes());
            hasher.finalize()
        }
    }
}
