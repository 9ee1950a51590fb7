//! The constants of Windows paths.

/// What separates components.
pub const SEPARATOR: char = '\\';

/// What separates components, as a text.
pub const SEPARATOR_STR: &str = "\\";

/// What separates components too, unless a path is read verbatim.
pub const ALT_SEPARATOR: char = '/';

/// What separates components too, as a text.
pub const ALT_SEPARATOR_STR: &str = "/";

/// The parent directory.
pub const PARENT_DIR: &[u8] = b"..";

/// The parent directory, as a text.
pub const PARENT_DIR_STR: &str = "..";

/// The current directory.
pub const CURRENT_DIR: &[u8] = b".";

/// The current directory, as a text.
pub const CURRENT_DIR_STR: &str = ".";

/// The bytes that no name may have.
pub const DISALLOWED_FILENAME_BYTES: &[u8] = &[
    b'\\', b'/', b':', b'?', b'*', b'"', b'>', b'<', b'|', b'\0',
];

/// The characters that no name may have.
pub const DISALLOWED_FILENAME_CHARS: &[char] = &[
    '\\', '/', ':', '?', '*', '"', '>', '<', '|', '\0',
];

/// The names that stand for devices, in either case and with any extension, as `con.txt` does.
pub const RESERVED_DEVICE_NAMES: &[&[u8]] = &[
    b"CON", b"PRN", b"AUX", b"NUL", b"COM1", b"COM2", b"COM3", b"COM4", b"COM5", b"COM6", b"COM7",
    b"COM8", b"COM9", b"COM0", b"LPT1", b"LPT2", b"LPT3", b"LPT4", b"LPT5", b"LPT6", b"LPT7",
    b"LPT8", b"LPT9", b"LPT0",
];

/// The names that stand for devices, in either case and with any extension, as texts.
pub const RESERVED_DEVICE_NAMES_STR: &[&str] = &[
    "CON", "PRN", "AUX", "NUL", "COM1", "COM2", "COM3", "COM4", "COM5", "COM6", "COM7", "COM8",
    "COM9", "COM0", "LPT1", "LPT2", "LPT3", "LPT4", "LPT5", "LPT6", "LPT7", "LPT8", "LPT9", "LPT0",
];
