// A place: a root, or a path below one.
ghost use Rattle.std.specs.Prelude.{◌≡◌, IfOk, IfErr, IfSome, Some, None, Err, ◌∷◌, ◌++◌};
ghost use Rattle.std.specs.Option.{option_map};
ghost use Rattle.std.specs.String.{string_bytes};
ghost use Rattle.fault_count.specs.Causes.{Explains};
ghost use Rattle.rel_paths.specs.Names.{IsUserPath, IsModId};
ghost use Rattle.tree_fs.specs.Spot.{spot_of};
ghost use Rattle.tree_fs.specs.Places.{game_spot, mod_spot, staged_spot, folder_above};
ghost use Rattle.tree_fs.specs.Texts.{root_word, root_named, place_text, place_fault, rel_fault, control_spot};

use rel_paths::{Control, ModId, PathError, RelPath, only_memory};
use std::alloc::{AllocError, Global};

/// One of the three folders that the engine works in.
#[derive(Clone, Copy, Debug, PartialEq, Eq)]
pub enum Root {
    /// `stage`: the mods, each unpacked in a folder of its own.
    Stage,
    /// `game`: where the mods' files are deployed.
    Game,
    /// `keep`: the profile, the intent journal, and what was set aside.
    Keep,
}

impl Root {
    /// The root's name.
    pub fn word(self) -> &'static str
        ensures { result.now ≡ root_word self }
    {
        match self {
            Root::Stage => "stage",
            Root::Game => "game",
            Root::Keep => "keep",
        }
    }

    /// The root of this name.
    pub fn named(word: &str) -> Option<Root>
        ensures { result ≡ root_named word.now }
    {
        match word {
            "stage" => Some(Root::Stage),
            "game" => Some(Root::Game),
            "keep" => Some(Root::Keep),
            _ => None,
        }
    }
}

/// A place of a file system: a root, or what has a path below it.
#[derive(Drop)]
pub struct Place {
    pub root: Root,
    /// The path below the root; `None` is the root itself.
    pub rel: Option<RelPath>,
}

impl Place {
    /// The place of a path in the game folder.
    pub fn game(_alloc: Global, path: &RelPath) -> Result<Place, AllocError>
        ensures { IfOk result (λ place. spot_of place ≡ game_spot path.now) }
    {
        Ok(Place {
            root: Root::Game,
            rel: Some(path.copy()?),
        })
    }

    /// The folder that a mod is unpacked in.
    pub fn mod_folder(alloc: Global, id: &ModId) -> Result<Place, AllocError>
        ensures { IfOk result (λ place. spot_of place ≡ mod_spot id.now) }
    {
        Ok(Place {
            root: Root::Stage,
            rel: Some(id_path(alloc, id)?),
        })
    }

    /// The place of a mod's file, by its path in the mod.
    pub fn staged(alloc: Global, id: &ModId, path: &RelPath) -> Result<Place, AllocError>
        requires { IsUserPath path.now }
        ensures { IfOk result (λ place. spot_of place ≡ staged_spot id.now path.now) }
    {
        let folder = id_path(alloc, id)?;
        Ok(Place {
            root: Root::Stage,
            rel: Some(folder.join(alloc, path)?),
        })
    }

    /// A control place. It takes no memory.
    pub fn control(which: Control) -> Place
        ensures { spot_of result ≡ control_spot which }
    {
        let root = match which {
            Control::Manifest => Root::Game,
            _ => Root::Keep,
        };
        Place {
            root,
            rel: Some(RelPath::control(which)),
        }
    }

    /// An equal place. A control place's takes no memory.
    pub fn copy(&self) -> Result<Place, AllocError>
        ensures { IfOk result (λ place. place ≡ self.now) }
    {
        let rel = match &self.rel {
            Some(path) => Some(path.copy()?),
            None => None,
        };
        Ok(Place {
            root: self.root,
            rel,
        })
    }

    /// The place with this text: a root's word, then, where there is a path, `/` and a held path.
    /// Another word is `BadName(0)`. The faults of the path count its names from 1.
    #[tactic(auto, unfolding(crate::specs::Texts::place_fault))]
    pub fn parse(alloc: Global, text: &str) -> Result<Place, PathError>
        ensures same { IfOk result (λ place. place_text place ≡ text.now) }
        ensures err { IfErr result (Explains PathError.Memory (place_fault text.now)) }
        ensures fault { IfSome (place_fault text.now) (λ e. result ≡ Err e) }
    {
        match text.split_once('/') {
            None => match Root::named(text) {
                Some(root) => Ok(Place { root, rel: None }),
                None => Err(PathError::BadName(0)),
            },
            Some((word, path)) => match Root::named(word) {
                Some(root) => place_below(alloc, root, path),
                None => Err(PathError::BadName(0)),
            },
        }
    }

    /// The folder that the place lies in. A root has none.
    pub fn parent(&self, alloc: Global) -> Result<Option<Place>, AllocError>
        ensures { IfOk result (λ above. option_map spot_of above ≡ folder_above (spot_of self.now)) }
    {
        match &self.rel {
            Some(path) => Ok(Some(Place {
                root: self.root,
                rel: path.parent(alloc)?,
            })),
            None => Ok(None),
        }
    }

    /// The root's word, then, where there is a path, `/` and the path. `parse` takes each such text.
    pub fn text(&self, alloc: Global) -> Result<String, AllocError>
        ensures same { IfOk result (λ text. string_bytes text ≡ place_text self.now) }
        ensures taken { IfOk result (λ _. place_fault (place_text self.now) ≡ None) }
    {
        let mut text = self.root.word().to_string(alloc)?;
        if let Some(path) = &self.rel {
            text.push_str("/")?;
            text.push_str(path.text())?;
        }
        self.is_held();
        Ok(text)
    }

    // A place's path is within the limits of a held path.
    fn is_held(&self)
        ensures { place_fault (place_text self.now) ≡ None }
    {
        match &self.rel {
            Some(path) => {
                let _ = path.text();
            }
            None => {}
        }
    }
}

// The path whose one name is the id.
fn id_path(alloc: Global, id: &ModId) -> Result<RelPath, AllocError>
    ensures same { IfOk result (λ path. path ≡ id.now) }
    ensures good { IsModId id.now }
{
    match RelPath::parse(alloc, id.text()) {
        Ok(path) => Ok(path),
        Err(fault) => Err(only_memory(fault)),
    }
}

// The place of a held path below a root. Its faults count the path's names from 1.
fn place_below(alloc: Global, root: Root, path: &str) -> Result<Place, PathError>
    ensures same { IfOk result (λ place. place_text place ≡ root_word root ++ 47 ∷ path.now) }
    ensures err { IfErr result (Explains PathError.Memory (rel_fault (Some path.now))) }
    ensures fault { IfSome (rel_fault (Some path.now)) (λ e. result ≡ Err e) }
{
    match RelPath::parse_held(alloc, path) {
        Ok(path) => Ok(Place {
            root,
            rel: Some(path),
        }),
        Err(PathError::BadName(at)) => Err(PathError::BadName(at + 1)),
        Err(fault) => Err(fault),
    }
}
