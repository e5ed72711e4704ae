// A trigger over the memberships that stand in an image.
ghost use Rattle.std.specs.Prelude.{◌≡◌, ◌+◌, ◌-◌, ◌*◌, ◌<◌, ◌≤◌, length};
ghost use Rattle.entries.specs.Inner.Places.{member_numbers};
ghost use Rattle.profile.specs.Inner.Decoded.{member_from};
ghost use Rattle.fitting.specs.Fitting.{in_rows};
ghost use Rattle.fitting.specs.Inner.Trigger.{members_at, hits, SameRows, group_hit, holds_at, groups_hold, fits_by};

use entries::Member;

// The rows of a trigger; bit i of the mask says whether row first + i fits.
#[derive(Clone, Copy)]
pub(crate) struct TriggerRows {
    pub first: usize,
    pub count: usize,
    pub mask: u32,
    pub ghost low: { first ≤ 65535 },
    pub ghost few: { count ≤ 32 },
}

impl TriggerRows {
    fn has(self, row: usize) -> bool
        ensures { result ≡ in_rows self.first self.count row }
    {
        (self.first <= row) & (row < self.first + self.count)
    }
}

// Memberships that stand one after the other in an image.
#[derive(Clone, Copy)]
pub(crate) struct Members<'a> {
    pub image: &'a [u8],
    pub at: usize,
    pub count: usize,
    pub ghost inside: { at + 4 * count ≤ length image.now },
    pub ghost small: { length image.now ≤ 32768 },
}

impl<'a> Members<'a> {
    fn member(&self, i: usize) -> Member
        requires { i < self.now.count }
        ensures { result ≡ member_numbers self.now.image.now (self.now.at + 4 * i) }
    {
        entries::read_member(self.image, self.at + 4 * i)
    }

    // Whether membership i is of one of the trigger's rows, of the group, and its row's bit is as wanted.
    fn hits(&self, i: usize, rows: TriggerRows, want: bool, group: usize) -> bool
        requires { i < self.now.count }
        ensures { result ≡ hits want rows.mask rows.first rows.count group (member_from self.now.image.now (self.now.at + 4 * i)) }
    {
        let m = self.member(i);
        if !rows.has(m.row) {
            return false;
        }
        let fits = (rows.mask >> (m.row - rows.first)) & 1 == 1;
        if want {
            return (m.group == group) & fits;
        }
        (m.group == group) & !fits
    }

    // Whether some membership hits the group.
    fn group_hits(&self, rows: TriggerRows, want: bool, group: usize) -> bool
        ensures { result ≡ group_hit want rows.mask rows.first rows.count group (members_at self.now.image.now self.now.at self.now.count) }
    {
        for i in 0..self.count {
            if self.hits(i, rows, want, group) {
                return true;
            }
        }
        false
    }

    // If membership i is of one of the trigger's rows, its group has a hit.
    fn group_holds(&self, i: usize, rows: TriggerRows, want: bool) -> bool
        requires { i < self.now.count }
        ensures { result ≡ holds_at want rows.mask rows.first rows.count (members_at self.now.image.now self.now.at self.now.count) (member_from self.now.image.now (self.now.at + 4 * i)) }
    {
        let m = self.member(i);
        if !rows.has(m.row) {
            return true;
        }
        self.group_hits(rows, want, m.group)
    }

    // Whether every group of the trigger's rows has a hit.
    fn groups_hold(&self, rows: TriggerRows, want: bool) -> bool
        ensures { result ≡ groups_hold want rows.mask rows.first rows.count (members_at self.now.image.now self.now.at self.now.count) }
    {
        for i in 0..self.count {
            if !self.group_holds(i, rows, want) {
                return false;
            }
        }
        true
    }

    // Memberships at the front may be left out up to the first of the trigger's rows, and those behind its last: rows rise, so a trigger's
    // own stand together.
    fn skip_front(&self, rows: TriggerRows) -> usize
        ensures { (result ≤ self.now.count) × SameRows rows.first rows.count self.now.image.now self.now.at self.now.count (self.now.at + 4 * result) (self.now.count - result) }
    {
        for i in 0..self.count {
            if rows.has(self.member(i).row) {
                return i;
            }
        }
        self.count
    }

    fn skip_back(&self, rows: TriggerRows) -> usize
        ensures { (result ≤ self.now.count) × SameRows rows.first rows.count self.now.image.now self.now.at self.now.count self.now.at result }
    {
        for i in (0..self.count).rev() {
            if rows.has(self.member(i).row) {
                return i + 1;
            }
        }
        0
    }

    // Whether a trigger fits: form 0 DNF, 1 CNF, 2 no trigger.
    fn fit(&self, form: usize, rows: TriggerRows) -> bool
        ensures { result ≡ fits_by form rows.mask rows.first rows.count (members_at self.now.image.now self.now.at self.now.count) }
    {
        match form {
            0 => !self.groups_hold(rows, false),
            1 => self.groups_hold(rows, true),
            _ => true,
        }
    }

    // The trigger over its own memberships only. Without a trigger no membership is looked at.
    pub(crate) fn trigger_fits(&self, form: usize, rows: TriggerRows) -> bool
        ensures { result ≡ fits_by form rows.mask rows.first rows.count (members_at self.now.image.now self.now.at self.now.count) }
    {
        if 1 < form {
            return true;
        }
        let front = self.skip_front(rows);
        let behind = Members {
            image: self.image,
            at: self.at + 4 * front,
            count: self.count - front,
        };
        let own = Members {
            image: self.image,
            at: behind.at,
            count: behind.skip_back(rows),
        };
        own.fit(form, rows)
    }
}
