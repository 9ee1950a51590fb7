//! A number that depends on all results of a job, in their order.

use std::alloc::AllocError;
use typed_path::{
    AbsolutizeError, CheckedPathError, PathError, Piece, PieceKind, Typed, TypedComponent,
    TypedPath, UnixComponent, WindowsComponent, WindowsPrefix,
};

/// The digest of the results so far.
#[derive(Clone, Copy)]
pub struct Digest {
    state: u64,
}

impl Digest {
    /// Returns the digest of no results.
    pub fn new() -> Digest {
        Digest { state: 0 }
    }

    /// Returns the digest as a number.
    pub fn number(self) -> u64 {
        self.state
    }

    /// Adds a number.
    #[inline]
    pub fn take(&mut self, number: u64) {
        let mixed = (self.state ^ number).wrapping_mul(0x9FB2_1C65_1E98_DF25);
        self.state = mixed ^ (mixed >> 32);
    }

    /// Adds a truth value.
    #[inline]
    pub fn flag(&mut self, flag: bool) {
        self.take(u64::from(flag));
    }

    /// Adds bytes, eight at a time.
    #[inline]
    pub fn bytes(&mut self, bytes: &[u8]) {
        let (words, rest) = bytes.as_chunks::<8>();
        let mut sum = bytes.len() as u64;
        for word in words {
            sum = sum.rotate_left(9) ^ u64::from_le_bytes(*word);
        }
        for byte in rest {
            sum = sum.rotate_left(9) ^ u64::from(*byte);
        }
        self.take(sum);
    }

    /// Adds bytes, or that there are none.
    #[inline]
    pub fn some(&mut self, bytes: Option<&[u8]>) {
        match bytes {
            Some(bytes) => self.bytes(bytes),
            None => self.take(1),
        }
    }

    /// Adds a number that is not 0, or that there is none.
    #[inline]
    pub fn noted(&mut self, number: Option<u32>) {
        self.take(u64::from(number.unwrap_or(0)));
    }

    /// Adds a path of either dialect.
    #[inline]
    pub fn typed(&mut self, path: TypedPath<'_>) {
        self.flag(matches!(path, Typed::Unix(_)));
        self.bytes(path.as_bytes());
    }

    /// Adds a component: what it is, and its bytes.
    #[inline]
    pub fn piece(&mut self, piece: Piece<'_>) {
        match piece.kind {
            PieceKind::Prefix(prefix) => self.prefix(prefix),
            PieceKind::RootDir => self.take(7),
            PieceKind::CurDir => self.take(8),
            PieceKind::ParentDir => self.take(9),
            PieceKind::Normal => self.take(10),
        }
        self.bytes(piece.text);
    }

    /// Adds a component of either dialect.
    #[inline]
    pub fn component(&mut self, component: TypedComponent<'_>) {
        let kind = match component {
            Typed::Unix(UnixComponent::RootDir) | Typed::Windows(WindowsComponent::RootDir) => {
                PieceKind::RootDir
            }
            Typed::Unix(UnixComponent::CurDir) | Typed::Windows(WindowsComponent::CurDir) => {
                PieceKind::CurDir
            }
            Typed::Unix(UnixComponent::ParentDir) | Typed::Windows(WindowsComponent::ParentDir) => {
                PieceKind::ParentDir
            }
            Typed::Unix(UnixComponent::Normal(_)) | Typed::Windows(WindowsComponent::Normal(_)) => {
                PieceKind::Normal
            }
            Typed::Windows(WindowsComponent::Prefix(prefix)) => PieceKind::Prefix(prefix.kind()),
        };
        self.piece(Piece {
            kind,
            text: component.as_bytes(),
        });
    }

    /// Adds a prefix: its kind, and its names or its letter.
    fn prefix(&mut self, prefix: WindowsPrefix<'_>) {
        let (kind, name, share): (u64, &[u8], &[u8]) = match prefix {
            WindowsPrefix::Verbatim(name) => (11, name, b""),
            WindowsPrefix::VerbatimUNC(server, share) => (12, server, share),
            WindowsPrefix::VerbatimDisk(letter) => (u64::from(letter) + 256, b"", b""),
            WindowsPrefix::DeviceNS(name) => (13, name, b""),
            WindowsPrefix::UNC(server, share) => (14, server, share),
            WindowsPrefix::Disk(letter) => (u64::from(letter) + 512, b"", b""),
        };
        self.take(kind);
        self.bytes(name);
        self.bytes(share);
    }

    /// Adds the fault for which a path is refused.
    pub fn fault(&mut self, fault: CheckedPathError) {
        self.take(match fault {
            CheckedPathError::InvalidFilename => 2,
            CheckedPathError::PathTraversalAttack => 3,
            CheckedPathError::UnexpectedPrefix => 4,
            CheckedPathError::UnexpectedRoot => 5,
        });
    }

    /// Adds the fault of a refusal. A failed allocation is returned, and ends the job.
    pub fn refusal(&mut self, refusal: PathError) -> Result<(), AllocError> {
        match refusal {
            PathError::Checked(fault) => self.fault(fault),
            PathError::OutOfMemory => return Err(AllocError),
        }
        Ok(())
    }

    /// Adds that a path is ambiguous. A failed allocation is returned, and ends the job.
    pub fn nowhere(&mut self, refusal: AbsolutizeError) -> Result<(), AllocError> {
        match refusal {
            AbsolutizeError::Ambiguous => self.take(6),
            AbsolutizeError::OutOfMemory => return Err(AllocError),
        }
        Ok(())
    }
}
