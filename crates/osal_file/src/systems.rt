//! Making, mounting, unmounting and removing file systems, and how full one is.
ghost use Rattle.std.specs.Prelude.{◌≡◌, ◌≤◌, ◌+◌, ◌++◌, ◌==◌, ◌∷◌, [], true, false, length, IfOk, OnErr, MatchOption};
ghost use Rattle.std.specs.Fmt.{decimal};
ghost use Rattle.std.specs.List.{list_any};
ghost use Rattle.osal_base.specs.Reply.{replied, success};
ghost use Rattle.osal_file.specs.Files.{system_at, at_names, is_open_within, passes};
ghost use Rattle.osal_file.specs.Systems.{is_device, is_size, system_of, in_found, mounted_at, volume_text, mkfs, mount, unmount, rmfs, stat_volume};

use crate::{FileSystem, Files, OpenDirectory, OpenFile};
use itoa::Buffer;
use osal_base::{Ack, Bytes, Name, OsalId, OutOfMemory, Room, Status};
use osal_idtable::{status_of_id, status_of_name};
use osal_path::{Trail, split};
use osal_slots::slot_among;
use osal_volume::Volume;
use std::alloc::Global;

/// The most blocks of a volume.
const BLOCK_LIMIT: u32 = 4096;

/// The most mounts.
const MOUNT_LIMIT: u32 = 1024;

impl Files {
    /// `OS_mkfs`: makes an empty file system of so many blocks of 512 bytes on a device, `/ramdev0` to `/ramdev9`.
    ///
    /// It takes the memory for the volume, once nothing else refuses it.
    ///
    /// Refused are, in this order, another device (`OS_ERR_INVALID_ARGUMENT`), no blocks or above 4,096
    /// (`OS_ERR_INVALID_SIZE`), the faults of a name in the label (`OS_ERR_INVALID_ARGUMENT`, `OS_ERR_NAME_TOO_LONG`), and
    /// a device that has a file system, or where no slot is free (`OS_FS_ERR_DEVICE_NOT_FREE`). The search for the device
    /// and for a free slot costs at most the capacity each, twice; the volume costs its blocks.
    pub fn mkfs(
        &mut self,
        alloc: Global,
        device: &Bytes,
        label: &Bytes,
        blocks: u32,
    ) -> Result<Ack, OutOfMemory>
        ensures step { IfOk result (λ ack. (replied ack [], self.new)
            ≡ mkfs self.old device.now.bytes label.now.bytes blocks) }
        ensures kept { OnErr result (self.new ≡ self.old) }
        ensures asked_last { OnErr result
            ((mkfs self.old device.now.bytes label.now.bytes blocks).0.answer ≡ success.answer) }
    {
        let Some(device) = device_name(device.as_slice()) else {
            return Ok(Ack::refused(Status::ErrInvalidArgument));
        };
        if !is_size(blocks) {
            return Ok(Ack::refused(Status::ErrInvalidSize));
        }
        let label = match Name::new(label.as_slice()) {
            Ok(label) => label,
            Err(fault) => return Ok(Ack::refused(status_of_name(fault))),
        };
        let Ok(id) = self.systems.peek(&device) else {
            return Ok(Ack::refused(Status::FsErrDeviceNotFree));
        };
        let volume = Volume::mkfs(alloc, blocks)?;
        self.systems
            .create(device, FileSystem { label, mount: None });
        let slot = slot_among(self.volumes.as_slice(), id);
        self.volumes[slot] = Some(volume);
        Ok(Ack::success())
    }

    /// `OS_mount`: mounts the file system of a device at a point: a path of one name, below which its files lie.
    ///
    /// Refused are, in this order, a device without a file system (`OS_ERR_NAME_NOT_FOUND`), the faults of the path
    /// (`OS_FS_ERR_PATH_TOO_LONG`, `OS_FS_ERR_PATH_INVALID`, `OS_FS_ERR_NAME_TOO_LONG`), a path of several names
    /// (`OS_FS_ERR_PATH_INVALID`), a file system that is mounted (`OS_ERR_INCORRECT_OBJ_STATE`), a point at which another
    /// is (`OS_ERR_NAME_TAKEN`), and 1,024 mounts (`OS_ERR_NO_FREE_IDS`). It looks at each file system and at each mount
    /// once at most, and takes no memory.
    pub fn mount(&mut self, device: &Bytes, path: &Bytes) -> Ack
        ensures { (replied result [], self.new) ≡ mount self.old device.now.bytes path.now.bytes }
    {
        match self.system_of(device.as_slice()) {
            None => Ack::refused(Status::ErrNameNotFound),
            Some(id) => self.mount_system(id, path.as_slice()),
        }
    }

    /// `OS_unmount`: takes away the mount at a point; the file system keeps its files.
    ///
    /// Refused are, in this order, the faults of the path as at `mount`, a path that is no mount
    /// (`OS_ERR_NAME_NOT_FOUND`), and a file system on which a file or a directory is open (`OS_ERR_OBJECT_IN_USE`). It
    /// looks at each mount, and at all that is open.
    pub fn unmount(&mut self, path: &Bytes) -> Ack
        ensures { (replied result [], self.new) ≡ unmount self.old path.now.bytes }
    {
        let trail = match split(path.as_slice()) {
            Ok(trail) => trail,
            Err(fault) => return Ack::refused(fault),
        };
        let Some(point) = only_name(&trail) else {
            return Ack::refused(Status::ErrNameNotFound);
        };
        let Some(id) = self.mounts.find(&point) else {
            return Ack::refused(Status::ErrNameNotFound);
        };
        if !self.systems.is_active(id) {
            return Ack::refused(Status::ErrNameNotFound);
        }
        if self.is_in_use(id) {
            return Ack::refused(Status::ErrObjectInUse);
        }
        self.systems.object_mut(id).mount = None;
        let _id = self.mounts.remove(&point);
        Ack::success()
    }

    /// `OS_rmfs`: removes the file system of a device, with its files.
    ///
    /// Refused are, in this order, a device without a file system (`OS_ERR_NAME_NOT_FOUND`), one that is mounted
    /// (`OS_ERR_INCORRECT_OBJ_STATE`), and one that somebody holds (`OS_ERR_OBJECT_IN_USE`). It looks at each file system
    /// once at most, and gives the volume's memory back.
    pub fn rmfs(&mut self, device: &Bytes) -> Ack
        ensures { (replied result [], self.new) ≡ rmfs self.old device.now.bytes }
    {
        let Some(id) = self.system_of(device.as_slice()) else {
            return Ack::refused(Status::ErrNameNotFound);
        };
        match self.systems.lookup(id) {
            Err(_) => return Ack::refused(Status::ErrNameNotFound),
            Ok(system) => {
                if system.mount.is_some() {
                    return Ack::refused(Status::ErrIncorrectObjState);
                }
            }
        }
        if let Err(fault) = self.systems.remove(id) {
            return Ack::refused(status_of_id(fault));
        }
        let slot = slot_among(self.volumes.as_slice(), id);
        self.volumes[slot] = None;
        Ack::success()
    }

    /// `OS_FileSysStatVolume`: gives the free blocks of the file system at a path, and as bytes the size of a block, how
    /// many blocks there are, and how many are free, in decimal, as `512 4096 4095`.
    ///
    /// Refused are the faults of the path as at `mount`, and a path that leads to no mount (`OS_FS_ERR_PATH_INVALID`). It
    /// looks at each mount once at most.
    pub fn stat_volume(&mut self, path: &Bytes, room: &mut Room) -> Ack
        ensures { (replied result room.new, self.new) ≡ stat_volume self.old path.now.bytes }
    {
        room.clear();
        let (id, _trail) = match self.mounts.resolve(path.as_slice()) {
            Ok(to) => to,
            Err(fault) => return Ack::refused(fault),
        };
        match &self.volumes[slot_among(self.volumes.as_slice(), id)] {
            None => Ack::refused(Status::FsErrPathInvalid),
            Some(volume) => {
                tell_volume(volume, room);
                Ack::gives(u64::from(volume.free()))
            }
        }
    }

    // Mounts a file system at a point.
    #[tactic(auto, using(crate::proofs::Points::not_a_point))]
    fn mount_system(&mut self, id: OsalId, path: &[u8]) -> Ack
        ensures { (replied result [], self.new) ≡ in_found self.old id
            (λ system. at_names self.old path.now (mounted_at self.old id system)) (system_at self.old id) }
    {
        let is_mounted = match self.systems.lookup(id) {
            Ok(system) => system.mount.is_some(),
            Err(_) => return Ack::refused(Status::ErrNameNotFound),
        };
        let trail = match split(path) {
            Ok(trail) => trail,
            Err(fault) => return Ack::refused(fault),
        };
        let Some(point) = only_name(&trail) else {
            return Ack::refused(Status::FsErrPathInvalid);
        };
        if is_mounted {
            return Ack::refused(Status::ErrIncorrectObjState);
        }
        if self.mounts.find(&point).is_some() {
            return Ack::refused(Status::ErrNameTaken);
        }
        if self.mounts.len() >= MOUNT_LIMIT {
            return Ack::refused(Status::ErrNoFreeIds);
        }
        self.systems.object_mut(id).mount = Some(point.copied());
        self.mounts.add(point, id);
        Ack::success()
    }

    // The file system of a device.
    fn system_of(&self, device: &[u8]) -> Option<OsalId>
        ensures { result ≡ system_of self.now device.now }
    {
        match device_name(device) {
            None => None,
            Some(device) => self.systems.find(&device),
        }
    }

    // Whether a file or a directory of a file system is open.
    fn is_in_use(&self, id: OsalId) -> bool
        ensures { result ≡ is_open_within self.now id [] }
    {
        any_file_of(self.open_files.as_slice(), id)
            || any_directory_of(self.open_directories.as_slice(), id)
    }
}

fn any_file_of(files: &[Option<OpenFile>], id: OsalId) -> bool
    ensures { result ≡ list_any (passes (λ file. (file.system == id))) files.now }
{
    files.iter().any(|file| is_file_of(file, id))
}

fn is_file_of(file: &Option<OpenFile>, id: OsalId) -> bool
    ensures { result ≡ passes (λ file. (file.system == id)) file.now }
{
    match file {
        None => false,
        Some(file) => file.system == id,
    }
}

fn any_directory_of(directories: &[Option<OpenDirectory>], id: OsalId) -> bool
    ensures { result ≡ list_any (passes (λ one. (one.system == id))) directories.now }
{
    directories.iter().any(|one| is_directory_of(one, id))
}

fn is_directory_of(one: &Option<OpenDirectory>, id: OsalId) -> bool
    ensures { result ≡ passes (λ one. (one.system == id)) one.now }
{
    match one {
        None => false,
        Some(one) => one.system == id,
    }
}

// The name of a device, where the bytes are one.
#[tactic(auto, using(crate::proofs::DeviceNames::device_is_name))]
fn device_name(device: &[u8]) -> Option<Name>
    ensures { MatchOption result
        (is_device device.now ≡ false)
        (λ name. (name ≡ device.now) × (is_device device.now ≡ true)) }
{
    if !is_device(device) {
        return None;
    }
    Name::new(device).ok()
}

fn is_device(device: &[u8]) -> bool
    ensures { result ≡ is_device device.now }
{
    device.len() == 8 && &device[..7] == b"/ramdev".as_slice() && device[7].is_ascii_digit()
}

// Whether a volume of so many blocks may be made.
fn is_size(blocks: u32) -> bool
    ensures { result ≡ is_size blocks }
{
    1 <= blocks && blocks <= BLOCK_LIMIT
}

// The only name of a path.
fn only_name(trail: &Trail) -> Option<Name>
    ensures { MatchOption result
        ((length trail.now == 1) ≡ false)
        (λ name. trail.now ≡ name ∷ []) }
{
    match trail.names() {
        [name] => Some(name.copied()),
        _ => None,
    }
}

// Puts the size of a block, how many blocks a volume has and how many are free into an empty room.
fn tell_volume(volume: &Volume, room: &mut Room)
    requires { room.old ≡ [] }
    ensures { room.new ≡ volume_text volume.now }
{
    room.append(b"512 ");
    append_number(room, volume.total());
    room.append(b" ");
    append_number(room, volume.free());
}

// Appends a number in decimal.
fn append_number(room: &mut Room, number: u32)
    requires { length room.old ≤ 1000 }
    ensures bytes { room.new ≡ room.old ++ decimal number }
    ensures few { length room.new ≤ length room.old + 10 }
{
    let mut buffer = Buffer::new();
    room.append(buffer.format(number).as_bytes());
}
