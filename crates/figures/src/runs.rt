// Examples of runs, with tickets in hand.
use labelling::sheet::Sheet;
use mesh::refusal::Refusal;
use std::mem::size_of;
use std::test::Fail;
use todd::k1::K1;
use walk::run::{Opening, Progress, Run, Ticket};

// An opening at the price point of mesh 4 that is all good 1.
fn on_mesh_4(number: u16) -> Opening<'static> {
    Opening {
        number,
        goods: 2,
        mesh: 4,
        start: &[4, 0],
    }
}

// Steps until the run arrives, and hands on the ticket.
fn arrive(run: &mut Run<K1, Sheet>) -> Option<Ticket> {
    for _ in 0..9usize {
        if let Ok(Progress::Arrived(ticket)) = run.step() {
            return Some(ticket);
        }
    }
    None
}

// The refusal and the ticket that a refused refining hands back.
fn refused(
    run: &mut Run<K1, Sheet>,
    ticket: Ticket,
    factor: u32,
) -> Result<(Refusal, Ticket), Fail> {
    match run.refine(ticket, factor) {
        Ok(_) => Err(Fail::new("refined")),
        Err(back) => Ok(back),
    }
}

#[test]
fn runs_are_small(rt: HostRuntime) {
    assert_eq!(rt; size_of::<Run<K1, Sheet>>(), 512);
}

#[test]
fn tickets_come_back_until_they_are_used(rt: HostRuntime) -> Result<(), Fail> {
    let sheet = Sheet::new(4, &[1, 1, 1, 2, 2])?;
    let tri = K1;
    let mut run = Run::open(on_mesh_4(7), &tri, &sheet)?;
    let mut other = Run::open(on_mesh_4(8), &tri, &sheet)?;
    let Some(foreign) = arrive(&mut other) else {
        return Err(Fail::new("no arrival"));
    };
    let (early, foreign) = refused(&mut run, foreign, 2)?;
    assert_eq!(rt; early, Refusal::TicketNotAccepted);
    let Some(ticket) = arrive(&mut run) else {
        return Err(Fail::new("no arrival"));
    };
    let (another, foreign) = refused(&mut run, foreign, 2)?;
    assert_eq!(rt; another, Refusal::TicketNotAccepted);
    assert_eq!(rt; foreign.number(), 8);
    let (low, ticket) = refused(&mut run, ticket, 1)?;
    assert_eq!(rt; low, Refusal::FactorOutOfRange);
    let (high, ticket) = refused(&mut run, ticket, 65)?;
    assert_eq!(rt; high, Refusal::FactorOutOfRange);
    assert_eq!(rt; ticket.number(), 7);
    assert_eq!(rt; ticket.mesh(), 4);
    assert_eq!(rt; run.look().total, 6);
    assert!(rt; run.refine(ticket, 2).is_ok());
    let (late, _) = refused(&mut run, foreign, 2)?;
    assert_eq!(rt; late, Refusal::TicketNotAccepted);
    assert_eq!(rt; run.look().mesh, 8);
    assert_eq!(rt; run.look().count, 1);
    assert_eq!(rt; run.look().total, 7);
    Ok(())
}

#[test]
fn a_foreign_mesh_halts_at_once(rt: HostRuntime) -> Result<(), Fail> {
    let sheet = Sheet::new(4, &[1, 1, 1, 2, 2])?;
    let tri = K1;
    let mut run = Run::open(on_mesh_4(7), &tri, &sheet)?;
    assert!(rt; run.look_for(1) == Err(Refusal::NotArrived));
    let Some(ticket) = arrive(&mut run) else {
        return Err(Fail::new("no arrival"));
    };
    assert_eq!(rt; run.step().err(), Some(Refusal::NotWalking));
    assert_eq!(rt; run.look_for(1)?[0], 2);
    assert_eq!(rt; run.look_for(2)?[1], 3);
    assert!(rt; run.look_for(0) == Err(Refusal::NoSuchGood));
    assert!(rt; run.look_for(3) == Err(Refusal::NoSuchGood));
    assert!(rt; run.refine(ticket, 2).is_ok());
    match run.step()? {
        Progress::Halted(halt) => {
            assert_eq!(rt; halt.prices[0], 4);
            assert_eq!(rt; halt.prices[1], 4);
            assert_eq!(rt; halt.label, 0);
        }
        _ => return Err(Fail::new("did not halt")),
    }
    assert_eq!(rt; run.look().count, 1);
    assert_eq!(rt; run.look().total, 7);
    Ok(())
}

#[test]
fn eight_goods_open_up_to_their_finest_mesh(rt: HostRuntime) -> Result<(), Fail> {
    let sheet = Sheet::new(4, &[1, 1, 1, 2, 2])?;
    let tri = K1;
    let finest = Opening {
        number: 0,
        goods: 8,
        mesh: 128,
        start: &[128, 0, 0, 0, 0, 0, 0, 0],
    };
    let finer = Opening {
        number: 0,
        goods: 8,
        mesh: 129,
        start: &[129, 0, 0, 0, 0, 0, 0, 0],
    };
    assert!(rt; Run::open(finest, &tri, &sheet).is_ok());
    assert!(rt; Run::open(finer, &tri, &sheet).is_err());
    Ok(())
}
