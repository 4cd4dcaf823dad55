// What a store of a kind is made for, and where its parts stand.

ghost use Rattle.model.specs.Table.{Shaped};

// What the layout of a store goes by: the top of each field; which field is the destination port's, with the source port's and the mark of packets without ports behind it; how many rules it takes; the words of a row; the words before the rows; and what word 2 says.
#[derive(Clone, Copy)]
pub struct Shape<'a> {
    pub tops: &'a [u32],
    pub ports: u32,
    pub most: u32,
    pub width: u32,
    pub head: u32,
    pub mark: u32,
    pub ghost shaped: { Shaped (record { tops = tops.now; ports = ports; most = most; width = width; head = head; mark = mark }) },
}
