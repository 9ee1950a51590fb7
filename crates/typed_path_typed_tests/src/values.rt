//! Paths as JSON values: rows of known answers, and texts that serde_json writes and reads.

use serde_json::Value;
use std::alloc::{AllocError, Global};
use std::test::Fail;
use typed_path::{
    TypedPath, TypedPathBuf, UnixPath, UnixPathBuf, Utf8TypedPath, Utf8TypedPathBuf, Utf8UnixPath,
    Utf8UnixPathBuf, Utf8WindowsPath, ValueError, WindowsPath, WindowsPathBuf,
};

/// Whether a value was made that is written as `wanted`.
fn is_written(
    alloc: Global,
    made: Result<Value, ValueError>,
    wanted: &str,
) -> Result<bool, AllocError> {
    match made {
        Ok(value) => Ok(value.to_string(alloc)?.as_str() == wanted),
        Err(_) => Ok(false),
    }
}

#[test]
fn written_paths(rt: HostRuntime) -> Result<(), Fail> {
    let alloc = rt.alloc();
    let quoted = r#""C:\\tmp""#;
    let values = [
        WindowsPath::new(br"C:\tmp").to_value(alloc),
        Utf8WindowsPath::new(r"C:\tmp").to_value(alloc),
        TypedPath::windows(br"C:\tmp").to_value(alloc),
        Utf8TypedPath::windows(r"C:\tmp").to_value(alloc),
    ];
    for value in values {
        assert!(rt; is_written(alloc, value, quoted)?);
    }
    assert!(rt; is_written(alloc, Utf8UnixPath::new("é/").to_value(alloc), r#""é/""#)?);
    let no_text = [
        UnixPath::new(b"\xFF").to_value(alloc),
        TypedPath::windows(b"\xFF").to_value(alloc),
    ];
    for value in no_text {
        assert!(rt; value.err() == Some(ValueError::NotUtf8));
    }
    Ok(())
}

#[test]
fn read_paths(rt: HostRuntime) -> Result<(), Fail> {
    let alloc = rt.alloc();
    let Ok(value) = Value::from_str(alloc, r#""\\some\\path\\to\\file.txt""#) else {
        return Err(Fail::new("it is read"));
    };
    let wanted = r"\some\path\to\file.txt";
    let Ok(typed) = TypedPathBuf::from_value(alloc, &value) else {
        return Err(Fail::new("it is a text"));
    };
    assert!(rt; typed.is_windows());
    assert_eq!(rt; typed.as_bytes(), wanted.as_bytes());
    let Ok(text) = Utf8TypedPathBuf::from_value(alloc, &value) else {
        return Err(Fail::new("it is a text"));
    };
    assert!(rt; text.is_windows());
    assert_eq!(rt; text.as_str(), wanted);
    let Ok(unix) = Utf8UnixPathBuf::from_value(alloc, &value) else {
        return Err(Fail::new("it is a text"));
    };
    assert_eq!(rt; unix.as_path().as_str(), wanted);
    let Ok(windows) = WindowsPathBuf::from_value(alloc, &value) else {
        return Err(Fail::new("it is a text"));
    };
    assert_eq!(rt; windows.as_path().as_bytes(), wanted.as_bytes());
    Ok(())
}

#[test]
fn values_that_are_no_text(rt: HostRuntime) -> Result<(), Fail> {
    let alloc = rt.alloc();
    for written in ["1", "null", "true", "[]", "{}"] {
        let Ok(value) = Value::from_str(alloc, written) else {
            return Err(Fail::new("it is read"));
        };
        let refused = Some(ValueError::NotText);
        assert!(rt; UnixPathBuf::from_value(alloc, &value).err() == refused);
        assert!(rt; Utf8UnixPathBuf::from_value(alloc, &value).err() == refused);
        assert!(rt; TypedPathBuf::from_value(alloc, &value).err() == refused);
        assert!(rt; Utf8TypedPathBuf::from_value(alloc, &value).err() == refused);
    }
    Ok(())
}
