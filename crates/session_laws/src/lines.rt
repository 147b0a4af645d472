//! The laws of the lines of a call: what they are made of, and what they show and write.

ghost use Rattle.std.specs.Prelude.{◌≡◌, ℕ, ◌<◌, ◌≤◌, true, List, length, Some, None, IsTrue, if◌then◌else◌};
ghost use Rattle.rss_names.specs.declared.service.Key.{Key};
ghost use Rattle.rss_wire.specs.declared.messages.Version.{Version};
ghost use Rattle.rss_tables.specs.Lines.{Line, lines_of, line_at, with_line, version_in, shown_on};
ghost use Rattle.rss_tables.specs.Locks.{has_key};
ghost use Rattle.rss_tables.specs.Versions.{KeyVersions, newest_version, newest_of, version_at, versions_at};
ghost use Rattle.rss_tables.specs.TransactionSession.{TxnSession, computed, writes_on, greatest_prepared, greatest_shown};
ghost use Rattle.shard_laws.specs.Committed.{written_value};
ghost use Rattle.shard_laws.specs.Fitting.{is_written};
ghost use Rattle.session_laws.specs.Frames.{frame_of, frames_of, nth_line, IsLine, AreApartShards};

/// No two lines of a call have the same shard, and their shards are numbered from 1 to 16. A line is found
/// by its shard where it stands, and to replace it by one that is made of the same leaves what lines are
/// made of.
pub fn lines_of_a_call_are_of_shards_apart()
    ensures apart { (home : ℕ → ℕ) (reads writes : List Key) → AreApartShards (lines_of home reads writes) }
    ensures bounds { (home : ℕ → ℕ) (reads writes : List Key) (i : ℕ) → i < length (lines_of home reads writes) →
        (1 ≤ (nth_line (lines_of home reads writes) i).shard) × ((nth_line (lines_of home reads writes) i).shard ≤ 16) }
    ensures found { (lines : List Line) → AreApartShards lines → (i : ℕ) → i < length lines →
        line_at lines (nth_line lines i).shard ≡ nth_line lines i }
    ensures replaced { (lines : List Line) (l new : Line) → IsLine lines l → AreApartShards lines →
        frame_of new ≡ frame_of l → frames_of (with_line lines new) ≡ frames_of lines }
{}

/// A key that a call reads or writes is on the line of its home, if that is the number of a shard. A key on
/// a line is one of the call's, and the line is that of its home.
pub fn keys_are_on_the_lines_of_their_homes()
    ensures reads { (home : ℕ → ℕ) (reads writes : List Key) (key : Key) → IsTrue (has_key reads key) →
        1 ≤ home key.index → home key.index ≤ 16 →
        IsTrue (has_key (line_at (lines_of home reads writes) (home key.index)).reads key)
        × ((line_at (lines_of home reads writes) (home key.index)).shard ≡ home key.index)
        × IsLine (lines_of home reads writes) (line_at (lines_of home reads writes) (home key.index)) }
    ensures writes { (home : ℕ → ℕ) (reads writes : List Key) (key : Key) → IsTrue (has_key writes key) →
        1 ≤ home key.index → home key.index ≤ 16 →
        IsTrue (has_key (line_at (lines_of home reads writes) (home key.index)).writes key)
        × ((line_at (lines_of home reads writes) (home key.index)).shard ≡ home key.index)
        × IsLine (lines_of home reads writes) (line_at (lines_of home reads writes) (home key.index)) }
    ensures read_there { (home : ℕ → ℕ) (reads writes : List Key) (key : Key) (i : ℕ) →
        i < length (lines_of home reads writes) → has_key (nth_line (lines_of home reads writes) i).reads key ≡ true →
        (home key.index ≡ (nth_line (lines_of home reads writes) i).shard) × (has_key reads key ≡ true) }
    ensures written_there { (home : ℕ → ℕ) (reads writes : List Key) (key : Key) (i : ℕ) →
        i < length (lines_of home reads writes) → has_key (nth_line (lines_of home reads writes) i).writes key ≡ true →
        (home key.index ≡ (nth_line (lines_of home reads writes) i).shard) × (has_key writes key ≡ true) }
{}

/// Where one line alone shows a key, its version is the one that lines show of the key.
pub fn lines_that_alone_show_a_key_are_read()
    ensures { (lines : List Line) (i : ℕ) (key : Key) (v : Version) → i < length lines →
        ((j : ℕ) → j < length lines → (j ≡ i → ⊥) → version_in (nth_line lines j).shown key ≡ None) →
        version_in (nth_line lines i).shown key ≡ Some v → shown_on lines key ≡ v }
{}

/// A shard shows of each key that it is asked for the newest version, or the version at a time, and of no
/// other key anything.
pub fn shards_show_what_was_asked_for()
    ensures newest { (store : List KeyVersions) (keys : List Key) (key : Key) →
        version_in (newest_of store keys) key ≡ (if has_key keys key then Some (newest_version store key) else None) }
    ensures at_a_time { (store : List KeyVersions) (keys : List Key) (time : ℕ) (key : Key) →
        version_in (versions_at store keys time) key ≡ (if has_key keys key then Some (version_at store key time) else None) }
{}

/// No line shows a version above the greatest time that lines show, nor is one prepared above the greatest
/// prepare time.
pub fn shown_and_prepared_times_are_not_above_the_greatest()
    ensures shown { (lines : List Line) (i : ℕ) (key : Key) (v : Version) → i < length lines →
        version_in (nth_line lines i).shown key ≡ Some v → v.time ≤ greatest_shown lines }
    ensures prepared { (lines : List Line) (i : ℕ) → i < length lines →
        (nth_line lines i).prepare_time ≤ greatest_prepared lines }
{}

/// What a transaction asks a line to write has, for each key that the line writes, the value that the
/// transaction computed, and no other key.
pub fn writes_on_a_line_are_those_of_its_keys()
    ensures values { (t : TxnSession) (i : ℕ) (key : Key) → i < length t.lines →
        has_key (nth_line t.lines i).writes key ≡ true →
        written_value (writes_on (nth_line t.lines i) (computed t)) key ≡ written_value (computed t) key }
    ensures fits { (l : Line) (writes : List (Key × ℕ)) (key : Key) →
        IsTrue (is_written (writes_on l writes) key) → IsTrue (has_key l.writes key) }
{}
