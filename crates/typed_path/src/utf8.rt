//! Paths of text: each holds the path of its bytes, to which its calls forward.

mod encoding;
mod path;
mod path_buf;
mod reading;
mod unix;
mod windows;

pub use encoding::{Utf8Component, Utf8Encoding};
pub use path::{Utf8Ancestors, Utf8Components, Utf8Iter, Utf8Path};
pub use path_buf::Utf8PathBuf;
pub use reading::{Utf8Piece, Utf8PieceKind, Utf8Reading};
pub use unix::{
    Utf8NativeComponent, Utf8NativeEncoding, Utf8NativePath, Utf8NativePathBuf,
    Utf8PlatformEncoding, Utf8PlatformPath, Utf8PlatformPathBuf, Utf8UnixComponent,
    Utf8UnixComponents, Utf8UnixEncoding, Utf8UnixPath, Utf8UnixPathBuf,
};
pub use windows::{
    Utf8WindowsComponent, Utf8WindowsComponents, Utf8WindowsEncoding, Utf8WindowsPath,
    Utf8WindowsPathBuf, Utf8WindowsPrefix, Utf8WindowsPrefixComponent,
};
