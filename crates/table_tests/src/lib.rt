// Tests of the tables at the borders of what they hold.
#![tactic(auto)]

#[cfg(test)]
mod tests {
    use blocks::refusal::Refusal;
    use blocks::settings::Settings;
    use mappings::event::{Event, Inward, Outward, Protocol, Verdict};
    use std::process::Abort;
    use std::test::Fail;
    use tables::table::Table;

    // Settings with a life of 120 ticks and a rest of 60, blocks of 16 ports, and 10.0.0.0 as the first internal address.
    fn settings(subscribers: u16, further: u8) -> Result<Settings, Refusal> {
        Settings::new(0xcb00_7101, 0x0a00_0000, subscribers, 16, further, 120, 60)
    }

    fn out(table: &mut Table, subscriber: u16, port: u16, to: u32) -> Verdict {
        table.step(&Event::Goes(Outward {
            subscriber,
            protocol: Protocol::Udp,
            port,
            to,
        }))
    }

    fn back(table: &mut Table, port: u16, from: u32) -> Verdict {
        table.step(&Event::Comes(Inward {
            protocol: Protocol::Udp,
            port,
            from,
        }))
    }

    fn ticks(table: &mut Table, count: u32) {
        for _ in 0..count {
            let _verdict = table.step(&Event::Tick);
        }
    }

    // As many of the subscriber's ports go out, the first by this external port, and the others by those behind it.
    fn fill(
        rt: &impl Abort,
        table: &mut Table,
        subscriber: u16,
        from: u16,
        count: u16,
        external: u16,
    ) {
        for i in 0..count {
            let verdict = out(table, subscriber, from.wrapping_add(i), 7);
            assert_eq!(rt;
                verdict,
                Verdict::Sent {
                    port: external.wrapping_add(i),
                }
            );
        }
    }

    // A mapping made at tick 0 is live through tick 120, its port rests through 180, and at 181 it is free.
    #[test]
    fn ticks_at_the_borders(rt: HostRuntime) -> Result<(), Fail> {
        let mut table = Table::new(rt.alloc(), settings(8, 4)?)?;
        assert_eq!(rt; out(&mut table, 2, 5000, 7), Verdict::Sent { port: 1056 });
        ticks(&mut table, 120);
        assert_eq!(rt;
            back(&mut table, 1056, 7),
            Verdict::Delivered {
                subscriber: 2,
                port: 5000,
            }
        );
        ticks(&mut table, 1);
        assert_eq!(rt;
            back(&mut table, 1056, 7),
            Verdict::Refused(Refusal::NoMapping)
        );
        assert_eq!(rt; out(&mut table, 2, 5000, 7), Verdict::Sent { port: 1057 });
        ticks(&mut table, 59);
        assert_eq!(rt; out(&mut table, 2, 5001, 7), Verdict::Sent { port: 1058 });
        ticks(&mut table, 1);
        assert_eq!(rt; out(&mut table, 2, 5002, 7), Verdict::Sent { port: 1056 });
        Ok(())
    }

    // Sixteen addresses are remembered, and the seventeenth takes the place of the first.
    #[test]
    fn addresses_remembered(rt: HostRuntime) -> Result<(), Fail> {
        let mut table = Table::new(rt.alloc(), settings(8, 4)?)?;
        for to in 1..17 {
            assert_eq!(rt; out(&mut table, 0, 5000, to), Verdict::Sent { port: 1024 });
        }
        assert_eq!(rt;
            back(&mut table, 1024, 1),
            Verdict::Delivered {
                subscriber: 0,
                port: 5000,
            }
        );
        assert_eq!(rt; out(&mut table, 0, 5000, 17), Verdict::Sent { port: 1024 });
        assert_eq!(rt;
            back(&mut table, 1024, 1),
            Verdict::Refused(Refusal::NotRemembered)
        );
        assert_eq!(rt;
            back(&mut table, 1024, 2),
            Verdict::Delivered {
                subscriber: 0,
                port: 5000,
            }
        );
        Ok(())
    }

    // With 0 to 4 further blocks a subscriber has 16 ports in each, and one port more is refused; all go back at the end.
    #[test]
    fn further_blocks(rt: HostRuntime) -> Result<(), Fail> {
        for further in 0u8..5 {
            let mut table = Table::new(rt.alloc(), settings(8, further)?)?;
            fill(&rt, &mut table, 3, 5000, 16, 1072);
            fill(&rt, &mut table, 3, 6000, 16 * u16::from(further), 1152);
            assert_eq!(rt;
                out(&mut table, 3, 9999, 7),
                Verdict::Refused(Refusal::NoPort)
            );
            ticks(&mut table, 180);
            assert!(rt; table.lines().len() == 0);
            ticks(&mut table, 1);
            assert!(rt; table.lines().len() == usize::from(further));
        }
        Ok(())
    }

    // The only further block is given away: nobody else gets it until it is taken back.
    #[test]
    fn all_blocks_given(rt: HostRuntime) -> Result<(), Fail> {
        let mut table = Table::new(rt.alloc(), settings(4031, 4)?)?;
        fill(&rt, &mut table, 0, 5000, 16, 1024);
        fill(&rt, &mut table, 0, 6000, 16, 65520);
        fill(&rt, &mut table, 1, 5000, 16, 1040);
        assert_eq!(rt;
            out(&mut table, 1, 6000, 7),
            Verdict::Refused(Refusal::NoPort)
        );
        ticks(&mut table, 181);
        assert!(rt; table.lines().len() == 1);
        fill(&rt, &mut table, 1, 5000, 16, 1040);
        assert_eq!(rt; out(&mut table, 1, 6000, 7), Verdict::Sent { port: 65520 });
        Ok(())
    }

    // At the last tick or the last countable event the run is over, for packets too.
    #[test]
    fn last_tick_and_count(rt: HostRuntime) -> Result<(), Fail> {
        for (tick, moment, packet) in [
            (u32::MAX, 5, false),
            (0, u64::MAX, true),
            (0, u64::MAX, false),
        ] {
            let mut table = Table::at(rt.alloc(), settings(8, 4)?, tick, moment)?;
            let verdict = if packet {
                out(&mut table, 0, 5000, 7)
            } else {
                table.step(&Event::Tick)
            };
            assert_eq!(rt; verdict, Verdict::Refused(Refusal::Exhausted));
            assert_eq!(rt;
                out(&mut table, 0, 5000, 7),
                Verdict::Refused(Refusal::Exhausted)
            );
            assert!(rt; table.moment() == moment);
        }
        let mut table = Table::at(rt.alloc(), settings(8, 4)?, 0, u64::MAX - 1)?;
        assert_eq!(rt; out(&mut table, 0, 5000, 7), Verdict::Sent { port: 1024 });
        assert_eq!(rt;
            out(&mut table, 0, 5000, 7),
            Verdict::Refused(Refusal::Exhausted)
        );
        Ok(())
    }
}
