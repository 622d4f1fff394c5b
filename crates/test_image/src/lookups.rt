// The lookups of one entry. A line has the room of the output, what is asked for, and the image.
use crate::print::{print_answer, print_line};
use model::NodeId;
use wire::{get, get16};

// The output of a room, and the lookup's answer in it.
fn print_topic_in(image: &[u8], name: &[u8], out: &mut [u8]) {
    let answer = lookup::topic(image, name, out);
    print_answer(answer, out);
}

pub fn print_topic(rest: &[u8], work: &mut [u8]) {
    if rest.len() < 4 {
        print_line(b"no line");
        return;
    }
    let room = get16(rest, 0);
    let end = 4 + get16(rest, 2);
    if rest.len() < end || work.len() < room {
        print_line(b"no line");
        return;
    }
    print_topic_in(&rest[end..], &rest[4..end], &mut work[..room]);
}

fn print_topic_of_id_in(image: &[u8], id: &[u8; 16], out: &mut [u8]) {
    let answer = lookup::topic_by_id(image, id, out);
    print_answer(answer, out);
}

pub fn print_topic_of_id(rest: &[u8], work: &mut [u8]) {
    if rest.len() < 18 {
        print_line(b"no line");
        return;
    }
    let room = get16(rest, 0);
    if work.len() < room {
        print_line(b"no line");
        return;
    }
    let mut id = [0; 16];
    wire::copy(&mut id, 0, &rest[2..18]);
    print_topic_of_id_in(&rest[18..], &id, &mut work[..room]);
}

fn print_partition_in(image: &[u8], name: &[u8], number: u32, out: &mut [u8]) {
    let answer = lookup::partition(image, name, number, out);
    print_answer(answer, out);
}

pub fn print_partition(rest: &[u8], work: &mut [u8]) {
    if rest.len() < 4 {
        print_line(b"no line");
        return;
    }
    let room = get16(rest, 0);
    let end = 4 + get16(rest, 2);
    if rest.len() < end + 4 || work.len() < room {
        print_line(b"no line");
        return;
    }
    let number = get(rest, end, 4) as u32;
    print_partition_in(&rest[end + 4..], &rest[4..end], number, &mut work[..room]);
}

fn print_broker_in(image: &[u8], node: NodeId, out: &mut [u8]) {
    let answer = lookup::broker(image, node, out);
    print_answer(answer, out);
}

pub fn print_broker(rest: &[u8], work: &mut [u8]) {
    if rest.len() < 10 {
        print_line(b"no line");
        return;
    }
    let room = get16(rest, 0);
    if work.len() < room {
        print_line(b"no line");
        return;
    }
    let node = NodeId(get(rest, 2, 8));
    print_broker_in(&rest[10..], node, &mut work[..room]);
}
