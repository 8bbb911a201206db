ghost use Rattle.std.specs.Prelude.{◌≡◌, length, is_some};
ghost use Rattle.session.specs.Contents.{bus_at, entry, entry_at, has_bypass, has_trim, is_set, names_unit, used};
ghost use Rattle.session.specs.Held.{setting};
ghost use Rattle.session.specs.Drafts.{draft, drafted};

use crate::nodes::Source;
use crate::sessions::drafts::Draft;
use crate::settings::Setting;

impl Draft {
    // The entry of unit `s`.
    pub(crate) fn entry(&self, s: usize) -> Setting
        ensures value { result ≡ setting (drafted self.now).settings s }
        ensures plain { entry result ≡ entry_at (draft self.now) s }
    {
        self.settings.get(s).copied().unwrap_or(Setting::UNSET)
    }

    // Whether unit `s` is set.
    pub fn is_set(&self, s: u8) -> bool
        ensures { result ≡ is_set (draft self.now) s }
    {
        self.entry(usize::from(s)).kind.is_some()
    }

    // Whether a trim is given for unit `s`.
    pub fn has_trim(&self, s: u8) -> bool
        ensures { result ≡ has_trim (draft self.now) s }
    {
        self.entry(usize::from(s)).trim.is_some()
    }

    // Whether a bypass is given for unit `s`.
    pub fn has_bypass(&self, s: u8) -> bool
        ensures { result ≡ has_bypass (draft self.now) s }
    {
        self.entry(usize::from(s)).bypass
    }

    // Whether some node has unit `s`.
    pub fn is_used(&self, s: u8) -> bool
        ensures { result ≡ used (draft self.now).nodes s }
    {
        self.nodes.iter().any(|node| node.unit == Some(s))
    }

    pub fn node_count(&self) -> usize
        ensures { result ≡ length (draft self.now).nodes }
    {
        self.nodes.len()
    }

    pub fn line_count(&self) -> usize
        ensures { result ≡ length (draft self.now).lines }
    {
        self.lines.len()
    }

    // Whether `v` is the number of a bus.
    pub fn is_bus(&self, v: u8) -> bool
        ensures { result ≡ bus_at (draft self.now) v }
    {
        let node = self.nodes.get(usize::from(v));
        node.is_some_and(|node| node.source == Source::Bus)
    }
}
