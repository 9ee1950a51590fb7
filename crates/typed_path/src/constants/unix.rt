//! The constants of Unix paths.

/// What separates components.
pub const SEPARATOR: char = '/';

/// What separates components, as a text.
pub const SEPARATOR_STR: &str = "/";

/// The parent directory.
pub const PARENT_DIR: &[u8] = b"..";

/// The parent directory, as a text.
pub const PARENT_DIR_STR: &str = "..";

/// The current directory.
pub const CURRENT_DIR: &[u8] = b".";

/// The current directory, as a text.
pub const CURRENT_DIR_STR: &str = ".";

/// The bytes that no name may have.
pub const DISALLOWED_FILENAME_BYTES: [u8; 2] = [b'/', b'\0'];

/// The characters that no name may have.
pub const DISALLOWED_FILENAME_CHARS: [char; 2] = ['/', '\0'];
