// The tables of serials.
ghost use Rattle.std.specs.Prelude.{◌≡◌, ◌<◌, None, OnOk, OnErr};
ghost use Rattle.back_core.specs.Needs.{IsOfGroup};
ghost use Rattle.sync_serials.specs.Serials.{no_syncs, serial_at, newest_of, with_sync, without_sync};

use gl_sync::Syncs;
use std::alloc::{AllocError, Global};
use std::marker::Model;
use vk_types::{QueueSerial, SerialIndex};

/// A sync by its number among those of OpenGL ES or among those of EGL.
#[derive(Clone, Copy, Debug, PartialEq, Eq)]
pub enum SyncName {
    Gl(u16),
    Egl(u16),
}

/// The serials of a share group's syncs, and for each index of the group the number of the sync that was made on it last.
#[derive(Drop)]
pub struct SyncSerials {
    group: u8,
    fences: Syncs,
    egl_fences: Syncs,
    newest: [u64; 8],
}

impl Model for SyncSerials {
    ghost use Rattle.std.specs.Prelude.{◌<◌};
    ghost use Rattle.sync_serials.specs.Serials.{SyncTables};

    ghost Value = { SyncTables };

    ghost view = { λ t. record { group = t.group; fences = t.fences; egl_fences = t.egl_fences; newest = t.newest } };

    ghost invariant = { λ t. t.group < 8 };
}

impl SyncSerials {
    /// No syncs in a group, 0 to 7. This takes no memory.
    pub fn new(alloc: Global, group: u8) -> SyncSerials
        requires { group < 8 }
        ensures { result ≡ no_syncs group }
    {
        SyncSerials {
            group,
            fences: Syncs::new(alloc),
            egl_fences: Syncs::new(alloc),
            newest: [0; 8],
        }
    }

    /// The serial of a sync, and None where there is no such sync.
    pub fn serial_of(&self, name: SyncName) -> Option<QueueSerial>
        ensures { result ≡ serial_at self.now name }
    {
        match name {
            SyncName::Gl(number) => self.fences.serial_of(number),
            SyncName::Egl(number) => self.egl_fences.serial_of(number),
        }
    }

    /// The number of the sync that was made last on an index of the group, or 0.
    pub fn newest(&self, index: SerialIndex) -> u64
        requires { IsOfGroup self.now.group index }
        ensures { result ≡ newest_of self.now index }
    {
        self.newest[usize::from(index.get() - 8 * self.group)]
    }

    /// Adds a sync that there is not. For want of memory nothing is added.
    pub fn insert(&mut self, name: SyncName, serial: QueueSerial) -> Result<(), AllocError>
        requires new { serial_at self.old name ≡ None }
        requires group { IsOfGroup self.old.group serial.index }
        ensures ok { OnOk result (self.new ≡ with_sync self.old name serial) }
        ensures err { OnErr result (self.new ≡ self.old) }
    {
        let place = usize::from(serial.index.get() - 8 * self.group);
        let last = serial.number;
        match name {
            SyncName::Gl(number) => self.fences.insert(number, serial)?,
            SyncName::Egl(number) => self.egl_fences.insert(number, serial)?,
        }
        self.newest[place] = last;
        Ok(())
    }

    /// Takes a sync out, where there is one.
    pub fn remove(&mut self, name: SyncName)
        ensures { self.new ≡ without_sync self.old name }
    {
        match name {
            SyncName::Gl(number) => self.fences.remove(number),
            SyncName::Egl(number) => self.egl_fences.remove(number),
        };
    }
}
