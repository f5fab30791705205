use generated_system::{GeneratedSystem, bench_system};
use std::alloc::{AllocError, Global};
use std::test::Fail;
use system_model::{Port, Role};

// Each component with its machine and the value of its first parameter.
fn told_components(alloc: Global, made: &GeneratedSystem) -> Result<String, AllocError> {
    let mut told = String::new(alloc);
    let components = made.system.components.as_slice();
    let bound = made.bound.components.as_slice();
    for (component, values) in components.iter().zip(bound) {
        told.push_str(component.name.text(alloc)?.as_str())?;
        told.push_str(" ")?;
        told.push_str(component.shape.identifier.as_str())?;
        for value in values.as_slice() {
            let bound_to = format!(in alloc; " {}={}", value.reference, value.value)?;
            told.push_str(bound_to.as_str())?;
        }
        told.push_str("\n")?;
    }
    Ok(told)
}

fn told_port(alloc: Global, port: &Port) -> Result<String, AllocError> {
    let (component, name, reference) = (port.component.0, port.name.as_str(), port.reference);
    match &port.role {
        Role::Input { feed: Some(feed) } => {
            format!(in alloc; "b{component} {name} {reference} from {}\n", feed.from.0)
        }
        Role::Input { feed: None } => format!(in alloc;
            "b{component} {name} {reference} from none\n"
        ),
        Role::Output => format!(in alloc; "b{component} {name} {reference}\n"),
        _ => format!(in alloc; "b{component} {name} {reference} Clock\n"),
    }
}

// Each port with its component, its value reference, and the port that feeds it.
fn told_ports(alloc: Global, made: &GeneratedSystem) -> Result<String, AllocError> {
    let mut told = String::new(alloc);
    for port in made.system.ports.as_slice() {
        told.push_str(told_port(alloc, port)?.as_str())?;
    }
    Ok(told)
}

#[test]
fn an_alarm_and_a_counter_are_drawn(rt: HostRuntime) -> Result<(), Fail> {
    let made = bench_system(rt.alloc(), 1, 2)?;
    assert_eq!(rt;
        told_components(rt.alloc(), &made)?.as_str(),
        "b0 alarm 1=65\nb1 counter 1=6\n"
    );
    assert_eq!(rt; told_ports(rt.alloc(), &made)?.as_str(), "b0 y 2\nb1 y 2\n");
    Ok(())
}

#[test]
fn gains_are_fed_by_components_before_them(rt: HostRuntime) -> Result<(), Fail> {
    let made = bench_system(rt.alloc(), 2, 10)?;
    assert_eq!(rt;
        told_components(rt.alloc(), &made)?.as_str(),
        "b0 alarm 1=20\nb1 counter 1=12\nb2 gain 1=15\nb3 gain 1=5\n\
b4 gain 1=6\nb5 alarm 1=25\nb6 alarm 1=65\nb7 counter 1=17\nb8 gain 1=6\nb9 gain 1=1\n"
    );
    assert_eq!(rt;
        told_ports(rt.alloc(), &made)?.as_str(),
        "b0 y 2\nb1 y 2\nb2 u 2 from 0\nb2 y 3\nb3 u 2 from 3\nb3 y 3\n\
b4 u 2 from 0\nb4 y 3\nb5 y 2\nb6 y 2\nb7 y 2\nb8 u 2 from 8\nb8 y 3\nb9 u 2 from 8\nb9 y 3\n"
    );
    Ok(())
}

#[test]
fn a_first_gain_is_fed_by_nothing(rt: HostRuntime) -> Result<(), Fail> {
    let made = bench_system(rt.alloc(), 7, 1)?;
    assert_eq!(rt;
        told_components(rt.alloc(), &made)?.as_str(),
        "b0 gain 1=15\n"
    );
    assert_eq!(rt;
        told_ports(rt.alloc(), &made)?.as_str(),
        "b0 u 2 from none\nb0 y 3\n"
    );
    Ok(())
}

#[test]
fn there_may_be_256_components(rt: HostRuntime) -> Result<(), Fail> {
    let made = bench_system(rt.alloc(), 7, 256)?;
    assert_eq!(rt; made.system.components.len(), 256);
    assert_eq!(rt; made.system.ports.len(), 337);
    assert_eq!(rt; made.system.instant_order.len(), 337);
    let early = made
        .system
        .components
        .as_slice()
        .iter()
        .filter(|c| c.shape.might_return_early);
    assert_eq!(rt; early.count(), 87);
    Ok(())
}
