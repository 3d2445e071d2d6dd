// What stands at a key of a JSON value.
ghost use Rattle.std.specs.Prelude.{◌≡◌, option_map};
ghost use Rattle.serde_json.specs.View.{view, items_view};
ghost use Rattle.manifest_json.specs.Rows.{text_at, flag_at, digest_at};
ghost use Rattle.manifest_json.specs.Manifests.{array_at, version_of};

use crate::{FileDigest, FormatVersion};
use serde_json::Value;

// The text at a key.
pub(crate) fn text_at<'a>(value: &'a Value, key: &str) -> Option<&'a str>
    ensures { option_map (λ t. t.now) result ≡ text_at key.now (view value.now) }
{
    value.get(key)?.as_str()
}

// The truth value at a key.
pub(crate) fn flag_at(value: &Value, key: &str) -> Option<bool>
    ensures { result ≡ flag_at key.now (view value.now) }
{
    value.get(key)?.as_bool()
}

// The digest at a key.
pub(crate) fn digest_at(value: &Value, key: &str) -> Option<FileDigest>
    ensures { result ≡ digest_at key.now (view value.now) }
{
    FileDigest::parse(text_at(value, key)?)
}

// The array at a key.
pub(crate) fn array_at<'a>(value: &'a Value, key: &str) -> Option<&'a Vec<Value>>
    ensures { option_map (λ v. items_view v.now.items) result ≡ array_at key.now (view value.now) }
{
    value.get(key)?.as_array()
}

// The version, where it is one that is known.
pub(crate) fn version_of(value: &Value) -> Option<FormatVersion>
    ensures { result ≡ version_of (view value.now) }
{
    FormatVersion::numbered(value.get("version")?.as_u64()?)
}
