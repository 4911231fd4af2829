//! Names of files.

ghost use Rattle.std.specs.Prelude.{◌≡◌};
ghost use Rattle.apx_json.specs.FileName.{is_file_name};

/// Whether a text may be the name of a file: it has 1 to 4,096 bytes and doesn't begin with `-`.
pub fn is_file_name(name: &str) -> bool
    ensures { result ≡ is_file_name name.now }
{
    let bytes = name.as_bytes();
    1 <= bytes.len() && bytes.len() <= 4096 && bytes[0] != b'-'
}
