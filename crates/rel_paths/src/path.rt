// A path below a root.
ghost use Rattle.std.specs.Prelude.{◌≡◌, ◌++◌, ◌↔◌, IsTrue, option_map, IfOk, IfErr, IfSome, Some};
ghost use Rattle.std.specs.List.{starts_with};
ghost use Rattle.std.specs.Str.{bytes_eq};
ghost use Rattle.fault_count.specs.Causes.{Explains};
ghost use Rattle.rel_paths.specs.Names.{names_of, is_reserved, path_fault, user_limits, held_limits, joined};
ghost use Rattle.rel_paths.specs.Names.{parent_names, backup_names, IsUserPath, IsHeldPath};
ghost use Rattle.rel_paths.specs.Controls.{control_path};

use crate::{Control, PathError, Text, names};
use std::alloc::{AllocError, Global};
use std::convert::AsStr;
use std::fmt;
use std::marker::Model;

/// A held path: 1 to 72 good names of at most 254 bytes each, joined by `/`, with at most 1,400
/// bytes in all. A contract sees it as the bytes of its text, whose names are `names_of` it, and
/// its order is that of these bytes.
#[derive(PartialEq, Eq, PartialOrd, Ord, Hash, Drop)]
pub struct RelPath {
    text: Text,
}

impl Model for RelPath {
    ghost use Rattle.std.specs.Prelude.{List, ℕ};
    ghost use Rattle.rel_paths.specs.Names.{IsHeldPath};

    ghost Value = { List ℕ };

    ghost view = { λ a. a.text };

    ghost invariant = { λ a. IsHeldPath a.text };

    ghost inverse = { λ bytes. record { text = bytes } };
}

impl RelPath {
    /// The user path with this text: 1 to 64 good names of at most 240 bytes each, joined by `/`,
    /// with at most 1,024 bytes in all. A text that is none gives its first fault.
    pub fn parse(alloc: Global, text: &str) -> Result<RelPath, PathError>
        ensures same { IfOk result (λ path. path ≡ text.now) }
        ensures user { IfOk result (λ path. IsUserPath path) }
        ensures err { IfErr result (Explains PathError.Memory (path_fault user_limits text.now)) }
        ensures fault { IfSome (path_fault user_limits text.now) (λ e. result ≡ Err e) }
    {
        match names::path_fault(&names::USER, text) {
            Some(fault) => Err(fault),
            None => Ok(RelPath {
                text: Text::new(alloc, text)?,
            }),
        }
    }

    /// The held path with this text: 1 to 72 good names of at most 254 bytes each, joined by `/`,
    /// with at most 1,400 bytes in all. A text that is none gives its first fault.
    pub fn parse_held(alloc: Global, text: &str) -> Result<RelPath, PathError>
        ensures same { IfOk result (λ path. path ≡ text.now) }
        ensures held { IfOk result (λ path. IsHeldPath path) }
        ensures err { IfErr result (Explains PathError.Memory (path_fault held_limits text.now)) }
        ensures fault { IfSome (path_fault held_limits text.now) (λ e. result ≡ Err e) }
    {
        match names::path_fault(&names::HELD, text) {
            Some(fault) => Err(fault),
            None => Ok(RelPath {
                text: Text::new(alloc, text)?,
            }),
        }
    }

    /// The path of a control place below its root. It takes no memory.
    pub fn control(which: Control) -> RelPath
        ensures { result ≡ control_path which }
    {
        RelPath {
            text: Text::from_static(control_text(which)),
        }
    }

    /// An equal path. A control place's takes no memory.
    pub fn copy(&self) -> Result<RelPath, AllocError>
        ensures { IfOk result (λ path. path ≡ self.now) }
    {
        Ok(RelPath {
            text: self.text.copy()?,
        })
    }

    /// The path of this path's names and then those of `below`, which has to be within the limits
    /// of a held path.
    pub fn join(&self, alloc: Global, below: &RelPath) -> Result<RelPath, AllocError>
        requires { IsHeldPath (joined self.now below.now) }
        ensures { IfOk result (λ path. names_of path ≡ names_of self.now ++ names_of below.now) }
    {
        let text = names::joined(alloc, self.text(), below.text())?;
        Ok(RelPath {
            text: Text::from_string(text),
        })
    }

    /// The path of all names but the last. A path of one name has none.
    pub fn parent(&self, alloc: Global) -> Result<Option<RelPath>, AllocError>
        ensures { IfOk result (λ parent.
            option_map names_of parent ≡ parent_names (names_of self.now)) }
    {
        match self.text().rsplit_once('/') {
            None => Ok(None),
            Some((above, _)) => Ok(Some(RelPath {
                text: Text::new(alloc, above)?,
            })),
        }
    }

    /// The path of this user path's backup: `.vortex_backup` stands behind its last name.
    pub fn backup_name(&self, alloc: Global) -> Result<RelPath, AllocError>
        requires { IsUserPath self.now }
        ensures { IfOk result (λ path. names_of path ≡ backup_names (names_of self.now)) }
    {
        let text = names::backup(alloc, self.text())?;
        Ok(RelPath {
            text: Text::from_string(text),
        })
    }

    /// The names, joined by `/`.
    pub fn text(&self) -> &str
        ensures same { result.now ≡ self.now }
        ensures held { IsHeldPath self.now }
    {
        self.text.as_str()
    }

    /// Whether the names of `other` are the first names of this path.
    pub fn starts_with(&self, other: &RelPath) -> bool
        ensures { result ≡ starts_with bytes_eq (names_of self.now) (names_of other.now) }
    {
        names::begins_with(self.text(), other.text())
    }

    /// Whether it is a user path.
    pub fn is_user(&self) -> bool
        ensures { IsTrue result ↔ IsUserPath self.now }
    {
        names::path_fault(&names::USER, self.text()).is_none()
    }

    /// Whether some name is that of a backup, or the first name is the manifest's.
    pub fn is_reserved(&self) -> bool
        ensures { result ≡ is_reserved (names_of self.now) }
    {
        names::is_reserved(self.text())
    }
}

fn control_text(which: Control) -> &'static str
    ensures { result.now ≡ control_path which }
{
    match which {
        Control::Intent => "intent.json",
        Control::IntentTemp => "intent.tmp",
        Control::ManifestTemp => "manifest.tmp",
        Control::ProfileTemp => "profile.tmp",
        Control::Profile => "profile.toml",
        Control::Manifest => "vortex.deployment.json",
    }
}

impl AsStr for RelPath {
    ghost text = { λ path. path };

    fn as_str(&self) -> &str {
        self.text()
    }
}

impl fmt::Debug for RelPath {
    fn fmt<W: fmt::Write>(&self, f: &mut fmt::Formatter<W>) -> fmt::Result {
        f.write_str(self.text())
    }
}

impl fmt::Display for RelPath {
    ghost output = { λ path. Some path };

    fn fmt<W: fmt::Write>(&self, f: &mut fmt::Formatter<W>) -> fmt::Result {
        f.write_str(self.text())
    }
}
