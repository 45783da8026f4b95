//! The file systems, and what is open on them.
ghost use Rattle.std.specs.Prelude.{◌≡◌, IfOk};
ghost use Rattle.osal_base.specs.Limits.{Fits};
ghost use Rattle.osal_file.specs.Files.{no_files};

use crate::devices::Devices;
use crate::{OpenDirectory, OpenFile};
use osal_base::{Limits, ObjType, OutOfMemory};
use osal_object::Objects;
use osal_path::MountMap;
use osal_slots::empty_slots;
use osal_volume::Volume;
use std::alloc::Global;
use std::marker::Model;

/// The file systems and where they are mounted, and the files and directories that are open.
#[derive(Drop)]
pub struct Files {
    pub(crate) systems: Devices,
    pub(crate) directories: Objects<(), ()>,
    pub(crate) mounts: MountMap,
    /// Each in the slot of its file system's identifier.
    pub(crate) volumes: Vec<Option<Volume>>,
    /// Each in the slot of its stream's identifier.
    pub(crate) open_files: Vec<Option<OpenFile>>,
    /// Each in the slot of its own identifier.
    pub(crate) open_directories: Vec<Option<OpenDirectory>>,
}

impl Model for Files {
    ghost use Rattle.std.specs.Prelude.{◌<◌, length};
    ghost use Rattle.osal_file.specs.Files.{FilesState};
    ghost use Rattle.std.specs.Coded.{codes};
    ghost use Rattle.osal_object.specs.Code.{objects_code};
    ghost use Rattle.osal_path.specs.Entries.{mounts_code};
    ghost use Rattle.osal_volume.specs.Code.{volume_code};

    ghost Value = { FilesState };

    ghost coded = { Prim.hlevel (codes, objects_code, mounts_code, volume_code) };

    ghost view = { λ a. record {
      systems = a.systems;
      directories = a.directories;
      mounts = a.mounts;
      volumes = a.volumes.items;
      open_files = a.open_files.items;
      open_directories = a.open_directories.items;
    } };

    ghost invariant = { λ a. (0 < length a.volumes.items) × (0 < length a.open_files.items) × (0 < length a.open_directories.items) };
}

impl Files {
    /// No file systems, and nothing open.
    ///
    /// It takes the memory for as many of each as the limits say, but for the volumes and for the names in directories.
    pub fn new(alloc: Global, limits: &Limits) -> Result<Files, OutOfMemory>
        requires { Fits limits.now }
        ensures { IfOk result (λ files. files ≡ no_files limits.now) }
    {
        let systems = Devices::new(alloc, limits.file_systems, limits.tasks)?;
        let directories = Objects::new(alloc, ObjType::Directory, limits.dirs, limits.tasks)?;
        let mounts = MountMap::new(alloc)?;
        let volumes = empty_slots(alloc, limits.file_systems)?;
        let open_files = empty_slots(alloc, limits.streams)?;
        let open_directories = empty_slots(alloc, limits.dirs)?;
        Ok(Files {
            systems,
            directories,
            mounts,
            volumes,
            open_files,
            open_directories,
        })
    }
}
