ghost use Rattle.std.specs.Prelude.{◌≡◌, ◌<◌, ◌^◌, Some, None, IfOk, OnOk, IsErrOf, string_bytes};
ghost use Rattle.std.specs.FinMap as map;
ghost use Rattle.object_ids.specs.Paths.{path_of, root_path};
ghost use Rattle.toml.specs.View.{table_view};
ghost use Rattle.containers.specs.TextMaps.Keyed.{keyed};
ghost use Rattle.configuration.specs.Settings.{settings_in};
ghost use Rattle.configuration.specs.Catalogues.{ArePaths};

use crate::fault::Refusal;
use crate::owned::read_setting;
use crate::setting::Setting;
use object_ids::path_text;
use std::alloc::{AllocError, Global};
use std::collections::BTreeMap;
use std::marker::Model;
use toml::Table;

/// What is configured at some paths, in byte order of the paths.
#[derive(Drop)]
pub struct Settings {
    pub(crate) entries: BTreeMap<String, Setting>,
}

impl Model for Settings {
    ghost use Rattle.std.specs.Prelude.{List, ℕ, string_bytes};
    ghost use Rattle.std.specs.FinMap as map;
    ghost use Rattle.std.specs.Coded.{coded_ℕ, coded_list};
    ghost use Rattle.containers.specs.TextMaps.Keyed.{text_order, keyed};
    ghost use Rattle.configuration.specs.contracts.setting.Setting as setting;
    ghost use Rattle.configuration.specs.declared.setting.Setting.{Setting};

    ghost Value = { map.FinMap text_order Setting };

    ghost coded = { map.code (coded_list coded_ℕ) setting.the_row.coded };

    ghost use Rattle.configuration.specs.Catalogues.{ArePaths};

    ghost view = { λ a. map.from_entries (keyed string_bytes a.entries.entries) };

    ghost invariant = { λ a. ArePaths (keyed string_bytes a.entries.entries) };
}

impl Settings {
    /// No path. It takes no memory.
    pub fn new(alloc: Global) -> Settings
        ensures { result ≡ map.empty }
    {
        Settings {
            entries: BTreeMap::new(alloc),
        }
    }

    /// Puts a setting at a path, in place of any that is there.
    pub fn put(&mut self, alloc: Global, path: &str, setting: Setting) -> Result<(), AllocError>
        requires { path_of path.now ≡ Some path.now }
        ensures { OnOk result (self.new ≡ map.insert self.old path.now setting) }
    {
        let key = String::from_str(alloc, path)?;
        self.entries.insert(key, setting)?;
        Ok(())
    }

    /// Takes the setting at `/` out.
    pub fn take_root(&mut self) -> Option<Setting>
        ensures value { result ≡ map.get self.old root_path }
        ensures rest { self.new ≡ map.remove self.old root_path }
    {
        self.entries.remove("/")
    }

    /// Whether a setting is there at the path that a text is.
    pub fn contains(&self, path: &str) -> bool
        ensures { result ≡ map.contains_key self.now path.now }
    {
        self.entries.contains_key(path)
    }

    /// The paths with their settings, in byte order of the paths.
    pub fn into_entries(self) -> BTreeMap<String, Setting>
        ensures entries { keyed string_bytes result.entries ≡ map.entries self }
        ensures paths { ArePaths (keyed string_bytes result.entries) }
    {
        let _ordered = self.entries.len();
        self.entries
    }

    /// How many paths there are.
    pub fn len(&self) -> usize
        ensures value { result ≡ map.len self.now }
        ensures small { result < 2 ^ 63 }
    {
        self.entries.len()
    }
}

/// The settings of a table from paths to their owners and access lists.
pub fn read_settings(alloc: Global, table: &Table) -> Result<Settings, Refusal>
    ensures ok { IfOk result (λ settings. settings_in (table_view table.now) ≡ Some settings) }
    ensures bad { IsErrOf result Refusal.BadKey → settings_in (table_view table.now) ≡ None }
{
    let mut settings = Settings::new(alloc);
    'settings: for (key, value) in table {
        let Some(path) = path_text(key.as_str()) else {
            return Err(Refusal::BadKey);
        };
        let setting = read_setting(alloc, value)?;
        settings.put(alloc, path, setting)?;
    }
    // Two keys that spell one path leave fewer settings than keys.
    if settings.len() != table.len() {
        return Err(Refusal::BadKey);
    }
    Ok(settings)
}
