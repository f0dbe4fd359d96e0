ghost use Rattle.std.specs.Prelude.{◌≡◌};
ghost use Rattle.volume_make.specs.declared.put_err.PutErr.{PutErr};

use volume_run::Stop;

/// Why the files of a folder are not all put onto a volume.
#[derive(Clone, Copy, Debug, PartialEq, Eq)]
pub enum PutErr {
    /// The folder failed.
    Folder,
    /// No further call of the volume is made: its device failed, or a page reads otherwise than it was written.
    Stopped(Stop),
    /// A call of the volume was refused, as none is where the device tells its bytes and the files have room.
    Refused,
}

impl From<Stop> for PutErr {
    ghost from_gives = { λ stop why. why ≡ PutErr.Stopped stop };

    fn from(stop: Stop) -> PutErr {
        PutErr::Stopped(stop)
    }
}
