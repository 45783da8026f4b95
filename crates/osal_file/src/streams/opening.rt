//! What an open does, by its flags and its access.
ghost use Rattle.std.specs.Prelude.{◌≡◌};
ghost use Rattle.osal_volume.specs.Volume.{content_at};
ghost use Rattle.osal_file.specs.Streams.{creates, truncates, may_write, may_read, is_unopened, volume_opened};

use osal_base::{Access, Name, OpenFlags};
use osal_volume::{Kind, Volume};

// Whether an open makes a file that is missing.
fn creates(flags: OpenFlags) -> bool
    ensures { result ≡ creates flags }
{
    match flags {
        OpenFlags::Neither | OpenFlags::Truncate => false,
        OpenFlags::Create | OpenFlags::Both => true,
    }
}

/// Whether an open takes a file's bytes away.
pub(super) fn truncates(flags: OpenFlags) -> bool
    ensures { result ≡ truncates flags }
{
    match flags {
        OpenFlags::Neither | OpenFlags::Create => false,
        OpenFlags::Truncate | OpenFlags::Both => true,
    }
}

/// Whether a file is opened to write.
pub(super) fn may_write(access: Access) -> bool
    ensures { result ≡ may_write access }
{
    match access {
        Access::Ro => false,
        Access::Wo | Access::Rw => true,
    }
}

/// Whether a file is opened to read.
pub(super) fn may_read(access: Access) -> bool
    ensures { result ≡ may_read access }
{
    match access {
        Access::Wo => false,
        Access::Ro | Access::Rw => true,
    }
}

/// Whether what stands at a path may not be opened so.
pub(super) fn is_unopened(volume: &Volume, at: &[Name], flags: OpenFlags) -> bool
    ensures { result ≡ is_unopened volume.now at.now flags (content_at volume.now at.now) }
{
    match volume.kind(at) {
        None => !creates(flags) || volume.making_fault(at).is_some(),
        Some(Kind::Dir) => true,
        Some(Kind::File(_)) => false,
    }
}

/// Makes the file that is missing, or takes the bytes of one that is there.
pub(super) fn open_volume(volume: &mut Volume, at: &[Name], flags: OpenFlags)
    ensures { volume.new ≡ volume_opened volume.old at.now flags (content_at volume.old at.now) }
{
    if volume.kind(at).is_none() {
        let _ = volume.create(at);
        return;
    }
    if truncates(flags) {
        let _ = volume.truncate(at);
    }
}
