// The scheduled sync (document 01, "The tick", Main). The definitions are in specs/SyncCounter.antt.
ghost use Rattle.std.specs.Prelude.{◌≡◌};
ghost use Rattle.sync.specs.SyncCounter.{fresh_of, is_due, after_load_of, zeroed_of, is_within};

#[derive(Clone, Copy)]
pub struct SyncCounter {
    // register 11
    pub interval: u16,
    // events loaded since the last sync
    pub count: u16,
}

impl SyncCounter {
    // [Spoiled.1h] the largest count of a record that is not spoiled
    pub const COUNT_LIMIT: u16 = 65534;

    // [Registers.4] interval and count 0
    pub fn fresh() -> SyncCounter
        ensures { result ≡ fresh_of }
    {
        SyncCounter {
            interval: 0,
            count: 0,
        }
    }

    // [Main.10] the event that is loaded now is a sync event; enabled: CSR bit 4
    pub fn is_due(self, enabled: bool) -> bool
        ensures { result ≡ is_due enabled self }
    {
        let interval = self.interval;
        let next = (self.count as u32) + 1;
        (enabled & (0 < interval)) & ((interval as u32) <= next)
    }

    // [Main.10] an event that is no sync event is counted
    pub fn after_load(self, enabled: bool) -> SyncCounter
        ensures { result ≡ after_load_of enabled self }
    {
        let interval = self.interval;
        let count = self.count;
        let next = (count as u32) + 1;
        if (interval as u32) <= next {
            return self;
        }
        if enabled & (0 < interval) {
            return SyncCounter {
                interval,
                count: next as u16,
            };
        }
        self
    }

    // [Spoiled.1h]
    pub fn is_within(self) -> bool
        ensures { result ≡ is_within self }
    {
        self.count <= SyncCounter::COUNT_LIMIT
    }

    // [Main.14] [Usersync.2] the count starts anew
    pub fn zeroed(self) -> SyncCounter
        ensures { result ≡ zeroed_of self }
    {
        SyncCounter {
            interval: self.interval,
            count: 0,
        }
    }
}
